// The result of an acknowledgement.
ghost use Rattle.std.specs.Prelude.{◌≡◌};
ghost use Rattle.packet_readers.specs.Reports.{result_for, as_result};

use crate::packet::{ReadPacket, ReadResult};

// The result, if the command has this number. The RehaMove3's is another: C gives result and command other types there.
#[tactic(auto, unfolding(crate::specs::Reports::result_for))]
pub fn result_for(number: u8, p: ReadPacket) -> i8
    ensures { result ≡ result_for number p }
{
    if p.command == number { p.result } else { 0 }
}

pub fn report(number: u8, p: ReadPacket) -> ReadResult
    ensures { result ≡ as_result number p }
{
    ReadResult {
        used: p.used,
        answer: p.answer as u16,
        packet: p.packet as u16,
        command: p.command as u16,
        size: p.size,
        result: result_for(number, p),
    }
}
