// Init and its acknowledgement, read.
ghost use Rattle.std.specs.Prelude.{◌≡◌, length};
ghost use Rattle.packets.specs.Reader.{data_put};
ghost use Rattle.packets2.specs.Rehastim2.{rehastim2};
ghost use Rattle.reader2.specs.Reader.{read_packet};
ghost use Rattle.packet_readers.specs.Reports.{as_packet, as_version, as_result};

use crate::packet::ReadResult;
use crate::{packet, result};
use commands2::numbers;

#[repr(C)]
#[derive(Clone, Copy)]
pub struct ReadVersion {
    pub used: usize,
    pub answer: u8,
    pub packet: u8,
    pub command: u8,
    pub size: u8,
    pub version: u32,
}

#[unsafe(no_mangle)]
pub extern "C" fn yarrowbell_rehastim2_read_init(s: &[u8], out: &mut [u8]) -> ReadVersion
    ensures { (result ≡ as_version (as_packet (read_packet s.now (length out.old)))) × (out.new ≡ data_put rehastim2 s.now out.old) }
{
    let p = packet::yarrowbell_rehastim2_read(s, out);
    ReadVersion {
        used: p.used,
        answer: p.answer,
        packet: p.packet,
        command: p.command,
        size: p.size,
        version: p.version as u32,
    }
}

#[unsafe(no_mangle)]
pub extern "C" fn yarrowbell_rehastim2_read_init_ack(s: &[u8], out: &mut [u8]) -> ReadResult
    ensures { (result ≡ as_result 2 (as_packet (read_packet s.now (length out.old)))) × (out.new ≡ data_put rehastim2 s.now out.old) }
{
    let p = packet::yarrowbell_rehastim2_read(s, out);
    result::report(numbers::INIT_ACK, p)
}
