// Ll_channel_config and its acknowledgement, written.
ghost use Rattle.std.specs.Prelude.{◌≡◌};
ghost use Rattle.commands3.specs.declared.Command.TheVariants.{LlChannelConfig, LlChannelConfigAck};
ghost use Rattle.commands3.specs.Commands.{alone};
ghost use Rattle.packets3.specs.Writer.{wrote, written};

use crate::alone;
use charge::Pulse;
use commands::Wrote;
use commands3::{Command, Message};

#[unsafe(no_mangle)]
pub extern "C" fn yarrowbell_rehamove3_write_ll_channel_config(
    packet: u8,
    execution: u8,
    channel: u8,
    pulse: Pulse,
    out: &mut [u8],
) -> Wrote
    ensures { (result ≡ wrote packet (record { command = LlChannelConfig execution channel; pulse = pulse }) out.old) × (out.new ≡ written packet (record { command = LlChannelConfig execution channel; pulse = pulse }) out.old) }
{
    let command = Command::LlChannelConfig { execution, channel };
    let m = Message { command, pulse };
    writer3::write_packet(packet, m, out)
}

#[unsafe(no_mangle)]
pub extern "C" fn yarrowbell_rehamove3_write_ll_channel_config_ack(
    packet: u8,
    res: u8,
    electrode: u8,
    out: &mut [u8],
) -> Wrote
    ensures { (result ≡ wrote packet (alone (LlChannelConfigAck res electrode)) out.old) × (out.new ≡ written packet (alone (LlChannelConfigAck res electrode)) out.old) }
{
    let c = Command::LlChannelConfigAck {
        result: res,
        electrode,
    };
    alone::write(packet, c, out)
}
