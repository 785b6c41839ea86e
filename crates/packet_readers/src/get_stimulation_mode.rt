// GetStimulationMode and its acknowledgement, read.
ghost use Rattle.std.specs.Prelude.{◌≡◌, length};
ghost use Rattle.packets.specs.Reader.{data_put};
ghost use Rattle.packets2.specs.Rehastim2.{rehastim2};
ghost use Rattle.reader2.specs.Reader.{read_packet};
ghost use Rattle.packet_readers.specs.Reports.{as_packet, as_empty, as_mode};

use crate::packet::ReadEmpty;
use crate::{packet, result};
use commands2::numbers;

#[repr(C)]
#[derive(Clone, Copy)]
pub struct ReadMode {
    pub used: usize,
    pub answer: u8,
    pub packet: u8,
    pub command: u16,
    pub size: u16,
    pub result: i8,
    pub mode: u8,
}

#[unsafe(no_mangle)]
pub extern "C" fn yarrowbell_rehastim2_read_get_stimulation_mode(
    s: &[u8],
    out: &mut [u8],
) -> ReadEmpty
    ensures { (result ≡ as_empty (as_packet (read_packet s.now (length out.old)))) × (out.new ≡ data_put rehastim2 s.now out.old) }
{
    ReadEmpty::from(packet::yarrowbell_rehastim2_read(s, out))
}

#[unsafe(no_mangle)]
pub extern "C" fn yarrowbell_rehastim2_read_get_stimulation_mode_ack(
    s: &[u8],
    out: &mut [u8],
) -> ReadMode
    ensures { (result ≡ as_mode (as_packet (read_packet s.now (length out.old)))) × (out.new ≡ data_put rehastim2 s.now out.old) }
{
    let p = packet::yarrowbell_rehastim2_read(s, out);
    ReadMode {
        used: p.used,
        answer: p.answer,
        packet: p.packet,
        command: p.command as u16,
        size: p.size as u16,
        result: result::result_for(numbers::GET_STIMULATION_MODE_ACK, p),
        mode: p.mode,
    }
}
