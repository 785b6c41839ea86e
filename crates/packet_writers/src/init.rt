// Init and its acknowledgement, written.
ghost use Rattle.std.specs.Prelude.{◌≡◌};
ghost use Rattle.commands2.specs.declared.Command.TheVariants.{Init, InitAck};
ghost use Rattle.writer2.specs.Writer.{wrote, written};

use commands::Wrote;
use commands2::Command;

#[unsafe(no_mangle)]
pub extern "C" fn yarrowbell_rehastim2_write_init(packet: u8, version: u8, out: &mut [u8]) -> Wrote
    ensures { (result ≡ wrote packet (Init version) out.old) × (out.new ≡ written packet (Init version) out.old) }
{
    let c = Command::Init { version };
    writer2::write_packet(packet, c, out)
}

#[unsafe(no_mangle)]
pub extern "C" fn yarrowbell_rehastim2_write_init_ack(packet: u8, res: i8, out: &mut [u8]) -> Wrote
    ensures { (result ≡ wrote packet (InitAck res) out.old) × (out.new ≡ written packet (InitAck res) out.old) }
{
    let c = Command::InitAck { result: res };
    writer2::write_packet(packet, c, out)
}
