// The result of an acknowledgement.
ghost use Rattle.std.specs.Prelude.{◌≡◌};
ghost use Rattle.packet_readers3.specs.Reports.{result_for, as_result};

use crate::packet::ReadPacket;

// What the readers of acknowledgements with a result alone hand back.
#[repr(C)]
#[derive(Clone, Copy)]
pub struct ReadResult {
    pub used: usize,
    pub answer: u8,
    pub packet: u8,
    pub command: u16,
    pub size: u16,
    pub result: u16,
}

// The result, if the command has this number. ScienceMode2's is another: C gives result and command other types there.
#[tactic(auto, unfolding(crate::specs::Reports::result_for))]
pub fn result_for(number: u16, p: ReadPacket) -> u8
    ensures { result ≡ result_for number p }
{
    if p.command == number { p.result } else { 0 }
}

pub fn report(number: u16, p: ReadPacket) -> ReadResult
    ensures { result ≡ as_result number p }
{
    ReadResult {
        used: p.used,
        answer: p.answer,
        packet: p.packet,
        command: p.command,
        size: p.size,
        result: result_for(number, p) as u16,
    }
}
