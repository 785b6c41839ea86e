// InitChannelListMode and its acknowledgement, written.
ghost use Rattle.std.specs.Prelude.{◌≡◌};
ghost use Rattle.commands2.specs.declared.Command.TheVariants.{InitChannelListMode, InitChannelListModeAck};
ghost use Rattle.writer2.specs.Writer.{wrote, written};

use commands::Wrote;
use commands2::{ChannelList, Command};

#[unsafe(no_mangle)]
pub extern "C" fn yarrowbell_rehastim2_write_init_channel_list_mode(
    packet: u8,
    factor: u8,
    active: u8,
    lf: u8,
    inter: u8,
    main: u16,
    execution: u8,
    out: &mut [u8],
) -> Wrote
    ensures { (result ≡ wrote packet (InitChannelListMode (record { factor = factor; active = active; lf = lf; inter = inter; main = main; execution = execution })) out.old) × (out.new ≡ written packet (InitChannelListMode (record { factor = factor; active = active; lf = lf; inter = inter; main = main; execution = execution })) out.old) }
{
    let list = ChannelList {
        factor,
        active,
        lf,
        inter,
        main,
        execution,
    };
    let c = Command::InitChannelListMode { list };
    writer2::write_packet(packet, c, out)
}

#[unsafe(no_mangle)]
pub extern "C" fn yarrowbell_rehastim2_write_init_channel_list_mode_ack(
    packet: u8,
    res: i8,
    out: &mut [u8],
) -> Wrote
    ensures { (result ≡ wrote packet (InitChannelListModeAck res) out.old) × (out.new ≡ written packet (InitChannelListModeAck res) out.old) }
{
    let c = Command::InitChannelListModeAck { result: res };
    writer2::write_packet(packet, c, out)
}
