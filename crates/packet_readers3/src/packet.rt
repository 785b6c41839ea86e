// A packet of any command, read.
ghost use Rattle.std.specs.Prelude.{◌≡◌, ◌≤◌, length};
ghost use Rattle.packets.specs.Reader.{data_put};
ghost use Rattle.packets3.specs.Rehamove3.{rehamove3};
ghost use Rattle.reader3.specs.Reader.{read_packet};
ghost use Rattle.packet_readers3.specs.Reports.{values_of, as_packet};

use charge::Point;
use commands3::Command;
use reader3::Read;

// The values of a command, zero where it has none of that kind. Those of a pulse stand beside it.
#[derive(Clone, Copy)]
struct Values {
    voltage: u8,
    result: u8,
    electrode: u8,
    execution: u8,
    channel: u8,
}

// Its first fields stand in every struct that is handed back: C's layouts give them other places and widths.
#[repr(C)]
#[derive(Clone, Copy)]
pub struct ReadPacket {
    pub used: usize,
    pub charge: i32,
    pub command: u16,
    pub size: u16,
    pub answer: u8,
    pub packet: u8,
    pub voltage: u8,
    pub result: u8,
    pub electrode: u8,
    pub execution: u8,
    pub channel: u8,
    pub number: u8,
    pub points: [Point; 16],
}

const NO_VALUES: Values = Values {
    voltage: 0,
    result: 0,
    electrode: 0,
    execution: 0,
    channel: 0,
};

fn values_of(c: Command) -> Values
    ensures { result ≡ values_of c }
{
    match c {
        Command::LlInit { voltage } => Values {
            voltage,
            ..NO_VALUES
        },
        Command::LlInitAck { result } | Command::LlStopAck { result } => Values {
            result,
            ..NO_VALUES
        },
        Command::LlChannelConfig { execution, channel } => Values {
            execution,
            channel,
            ..NO_VALUES
        },
        Command::LlChannelConfigAck { result, electrode } => Values {
            result,
            electrode,
            ..NO_VALUES
        },
        Command::LlStop | Command::Other { .. } => NO_VALUES,
    }
}

// What is read has at most sixteen points.
#[tactic(auto, unfolding(crate::specs::Reports::as_packet))]
fn report(r: Read) -> ReadPacket
    requires { r.message.pulse.number ≤ 16 }
    ensures { result ≡ as_packet r }
{
    let m = r.message;
    let c = m.command;
    let v = values_of(c);
    let pulse = m.pulse;
    let points = pulse.points;
    ReadPacket {
        used: r.used,
        charge: r.charge,
        command: commands3::number(c),
        size: r.size,
        answer: r.answer,
        packet: r.packet,
        voltage: v.voltage,
        result: v.result,
        electrode: v.electrode,
        execution: v.execution,
        channel: v.channel,
        number: pulse.number as u8,
        points,
    }
}

#[unsafe(no_mangle)]
pub extern "C" fn yarrowbell_rehamove3_read(s: &[u8], out: &mut [u8]) -> ReadPacket
    ensures { (result ≡ as_packet (read_packet s.now (length out.old))) × (out.new ≡ data_put rehamove3 s.now out.old) }
{
    report(reader3::read_packet(s, out))
}
