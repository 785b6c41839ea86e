// Ll_init and its acknowledgement, written.
ghost use Rattle.std.specs.Prelude.{◌≡◌};
ghost use Rattle.commands3.specs.declared.Command.TheVariants.{LlInit, LlInitAck};
ghost use Rattle.commands3.specs.Commands.{alone};
ghost use Rattle.packets3.specs.Writer.{wrote, written};

use crate::alone;
use commands::Wrote;
use commands3::Command;

#[unsafe(no_mangle)]
pub extern "C" fn yarrowbell_rehamove3_write_ll_init(
    packet: u8,
    voltage: u8,
    out: &mut [u8],
) -> Wrote
    ensures { (result ≡ wrote packet (alone (LlInit voltage)) out.old) × (out.new ≡ written packet (alone (LlInit voltage)) out.old) }
{
    let c = Command::LlInit { voltage };
    alone::write(packet, c, out)
}

#[unsafe(no_mangle)]
pub extern "C" fn yarrowbell_rehamove3_write_ll_init_ack(
    packet: u8,
    res: u8,
    out: &mut [u8],
) -> Wrote
    ensures { (result ≡ wrote packet (alone (LlInitAck res)) out.old) × (out.new ≡ written packet (alone (LlInitAck res)) out.old) }
{
    let c = Command::LlInitAck { result: res };
    alone::write(packet, c, out)
}
