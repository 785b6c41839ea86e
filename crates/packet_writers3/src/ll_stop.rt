// Ll_stop and its acknowledgement, written.
ghost use Rattle.std.specs.Prelude.{◌≡◌};
ghost use Rattle.commands3.specs.declared.Command.TheVariants.{LlStop, LlStopAck};
ghost use Rattle.commands3.specs.Commands.{alone};
ghost use Rattle.packets3.specs.Writer.{wrote, written};

use crate::alone;
use commands::Wrote;
use commands3::Command;

#[unsafe(no_mangle)]
pub extern "C" fn yarrowbell_rehamove3_write_ll_stop(packet: u8, out: &mut [u8]) -> Wrote
    ensures { (result ≡ wrote packet (alone LlStop) out.old) × (out.new ≡ written packet (alone LlStop) out.old) }
{
    let c = Command::LlStop;
    alone::write(packet, c, out)
}

#[unsafe(no_mangle)]
pub extern "C" fn yarrowbell_rehamove3_write_ll_stop_ack(
    packet: u8,
    res: u8,
    out: &mut [u8],
) -> Wrote
    ensures { (result ≡ wrote packet (alone (LlStopAck res)) out.old) × (out.new ≡ written packet (alone (LlStopAck res)) out.old) }
{
    let c = Command::LlStopAck { result: res };
    alone::write(packet, c, out)
}
