// Ll_init and its acknowledgement, read.
ghost use Rattle.std.specs.Prelude.{◌≡◌, length};
ghost use Rattle.packets.specs.Reader.{data_put};
ghost use Rattle.packets3.specs.Rehamove3.{rehamove3};
ghost use Rattle.reader3.specs.Reader.{read_packet};
ghost use Rattle.packet_readers3.specs.Reports.{as_packet, as_voltage, as_result};

use crate::result::ReadResult;
use crate::{packet, result};
use commands3::numbers;

#[repr(C)]
#[derive(Clone, Copy)]
pub struct ReadVoltage {
    pub used: usize,
    pub answer: u8,
    pub packet: u8,
    pub command: u16,
    pub size: u16,
    pub voltage: u16,
}

#[unsafe(no_mangle)]
pub extern "C" fn yarrowbell_rehamove3_read_ll_init(s: &[u8], out: &mut [u8]) -> ReadVoltage
    ensures { (result ≡ as_voltage (as_packet (read_packet s.now (length out.old)))) × (out.new ≡ data_put rehamove3 s.now out.old) }
{
    let p = packet::yarrowbell_rehamove3_read(s, out);
    ReadVoltage {
        used: p.used,
        answer: p.answer,
        packet: p.packet,
        command: p.command,
        size: p.size,
        voltage: p.voltage as u16,
    }
}

#[unsafe(no_mangle)]
pub extern "C" fn yarrowbell_rehamove3_read_ll_init_ack(s: &[u8], out: &mut [u8]) -> ReadResult
    ensures { (result ≡ as_result 1 (as_packet (read_packet s.now (length out.old)))) × (out.new ≡ data_put rehamove3 s.now out.old) }
{
    let p = packet::yarrowbell_rehamove3_read(s, out);
    result::report(numbers::LL_INIT_ACK, p)
}
