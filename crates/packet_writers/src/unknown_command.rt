// UnknownCommand, written.
ghost use Rattle.std.specs.Prelude.{◌≡◌};
ghost use Rattle.commands2.specs.declared.Command.TheVariants.{UnknownCommand};
ghost use Rattle.writer2.specs.Writer.{wrote, written};

use commands::Wrote;
use commands2::Command;

#[unsafe(no_mangle)]
pub extern "C" fn yarrowbell_rehastim2_write_unknown_command(
    packet: u8,
    echo: u8,
    out: &mut [u8],
) -> Wrote
    ensures { (result ≡ wrote packet (UnknownCommand echo) out.old) × (out.new ≡ written packet (UnknownCommand echo) out.old) }
{
    let c = Command::UnknownCommand { echo };
    writer2::write_packet(packet, c, out)
}
