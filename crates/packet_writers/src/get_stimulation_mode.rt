// GetStimulationMode and its acknowledgement, written.
ghost use Rattle.std.specs.Prelude.{◌≡◌};
ghost use Rattle.commands2.specs.declared.Command.TheVariants.{GetStimulationMode, GetStimulationModeAck};
ghost use Rattle.writer2.specs.Writer.{wrote, written};

use commands::Wrote;
use commands2::Command;

#[unsafe(no_mangle)]
pub extern "C" fn yarrowbell_rehastim2_write_get_stimulation_mode(
    packet: u8,
    out: &mut [u8],
) -> Wrote
    ensures { (result ≡ wrote packet GetStimulationMode out.old) × (out.new ≡ written packet GetStimulationMode out.old) }
{
    let c = Command::GetStimulationMode;
    writer2::write_packet(packet, c, out)
}

#[unsafe(no_mangle)]
pub extern "C" fn yarrowbell_rehastim2_write_get_stimulation_mode_ack(
    packet: u8,
    res: i8,
    mode: u8,
    out: &mut [u8],
) -> Wrote
    ensures { (result ≡ wrote packet (GetStimulationModeAck res mode) out.old) × (out.new ≡ written packet (GetStimulationModeAck res mode) out.old) }
{
    let c = Command::GetStimulationModeAck { result: res, mode };
    writer2::write_packet(packet, c, out)
}
