// Ll_channel_config and its acknowledgement, read.
ghost use Rattle.std.specs.Prelude.{◌≡◌, length};
ghost use Rattle.packets.specs.Reader.{data_put};
ghost use Rattle.packets3.specs.Rehamove3.{rehamove3};
ghost use Rattle.reader3.specs.Reader.{read_packet};
ghost use Rattle.packet_readers3.specs.Reports.{as_packet, as_config, as_electrode};

use crate::{packet, result};
use charge::Point;
use commands3::numbers;

#[repr(C)]
#[derive(Clone, Copy)]
pub struct ReadConfig {
    pub used: usize,
    pub charge: i32,
    pub command: u16,
    pub size: u16,
    pub answer: u8,
    pub packet: u8,
    pub execution: u8,
    pub channel: u8,
    pub number: u32,
    pub points: [Point; 16],
}

#[repr(C)]
#[derive(Clone, Copy)]
pub struct ReadElectrode {
    pub used: usize,
    pub answer: u8,
    pub packet: u8,
    pub command: u16,
    pub size: u16,
    pub result: u8,
    pub electrode: u8,
}

#[unsafe(no_mangle)]
pub extern "C" fn yarrowbell_rehamove3_read_ll_channel_config(
    s: &[u8],
    out: &mut [u8],
) -> ReadConfig
    ensures { (result ≡ as_config (as_packet (read_packet s.now (length out.old)))) × (out.new ≡ data_put rehamove3 s.now out.old) }
{
    let p = packet::yarrowbell_rehamove3_read(s, out);
    let points = p.points;
    ReadConfig {
        used: p.used,
        charge: p.charge,
        command: p.command,
        size: p.size,
        answer: p.answer,
        packet: p.packet,
        execution: p.execution,
        channel: p.channel,
        number: p.number as u32,
        points,
    }
}

#[unsafe(no_mangle)]
pub extern "C" fn yarrowbell_rehamove3_read_ll_channel_config_ack(
    s: &[u8],
    out: &mut [u8],
) -> ReadElectrode
    ensures { (result ≡ as_electrode (as_packet (read_packet s.now (length out.old)))) × (out.new ≡ data_put rehamove3 s.now out.old) }
{
    let p = packet::yarrowbell_rehamove3_read(s, out);
    ReadElectrode {
        used: p.used,
        answer: p.answer,
        packet: p.packet,
        command: p.command,
        size: p.size,
        result: result::result_for(numbers::LL_CHANNEL_CONFIG_ACK, p),
        electrode: p.electrode,
    }
}
