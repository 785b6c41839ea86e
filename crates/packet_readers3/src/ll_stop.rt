// Ll_stop and its acknowledgement, read.
ghost use Rattle.std.specs.Prelude.{◌≡◌, length};
ghost use Rattle.packets.specs.Reader.{data_put};
ghost use Rattle.packets3.specs.Rehamove3.{rehamove3};
ghost use Rattle.reader3.specs.Reader.{read_packet};
ghost use Rattle.packet_readers3.specs.Reports.{as_packet, as_empty, as_result};

use crate::result::ReadResult;
use crate::{packet, result};
use commands3::numbers;

#[repr(C)]
#[derive(Clone, Copy)]
pub struct ReadEmpty {
    pub used: usize,
    pub answer: u16,
    pub packet: u16,
    pub command: u16,
    pub size: u16,
}

#[unsafe(no_mangle)]
pub extern "C" fn yarrowbell_rehamove3_read_ll_stop(s: &[u8], out: &mut [u8]) -> ReadEmpty
    ensures { (result ≡ as_empty (as_packet (read_packet s.now (length out.old)))) × (out.new ≡ data_put rehamove3 s.now out.old) }
{
    let p = packet::yarrowbell_rehamove3_read(s, out);
    ReadEmpty {
        used: p.used,
        answer: p.answer as u16,
        packet: p.packet as u16,
        command: p.command,
        size: p.size,
    }
}

#[unsafe(no_mangle)]
pub extern "C" fn yarrowbell_rehamove3_read_ll_stop_ack(s: &[u8], out: &mut [u8]) -> ReadResult
    ensures { (result ≡ as_result 5 (as_packet (read_packet s.now (length out.old)))) × (out.new ≡ data_put rehamove3 s.now out.old) }
{
    let p = packet::yarrowbell_rehamove3_read(s, out);
    result::report(numbers::LL_STOP_ACK, p)
}
