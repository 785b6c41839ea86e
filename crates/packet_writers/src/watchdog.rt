// Watchdog, written.
ghost use Rattle.std.specs.Prelude.{◌≡◌};
ghost use Rattle.commands2.specs.declared.Command.TheVariants.{Watchdog};
ghost use Rattle.writer2.specs.Writer.{wrote, written};

use commands::Wrote;
use commands2::Command;

#[unsafe(no_mangle)]
pub extern "C" fn yarrowbell_rehastim2_write_watchdog(packet: u8, out: &mut [u8]) -> Wrote
    ensures { (result ≡ wrote packet Watchdog out.old) × (out.new ≡ written packet Watchdog out.old) }
{
    let c = Command::Watchdog;
    writer2::write_packet(packet, c, out)
}
