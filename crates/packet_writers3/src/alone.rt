// A command without points, written.
ghost use Rattle.std.specs.Prelude.{◌≡◌};
ghost use Rattle.commands3.specs.Commands.{alone};
ghost use Rattle.packets3.specs.Writer.{wrote, written};

use commands::Wrote;
use commands3::Command;

pub fn write(packet: u8, command: Command, out: &mut [u8]) -> Wrote
    ensures { (result ≡ wrote packet (alone command) out.old) × (out.new ≡ written packet (alone command) out.old) }
{
    writer3::write_packet(packet, commands3::alone(command), out)
}
