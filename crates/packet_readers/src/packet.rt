// A packet of any command, read.
ghost use Rattle.std.specs.Prelude.{◌≡◌, length};
ghost use Rattle.packets.specs.Reader.{data_put};
ghost use Rattle.packets2.specs.Rehastim2.{rehastim2};
ghost use Rattle.reader2.specs.Reader.{read_packet};
ghost use Rattle.packet_readers.specs.Reports.{values_of, as_packet, as_empty};

use commands2::{ChannelList, Command};
use reader2::Read;

// The values of a command, zero where it has none of that kind.
#[derive(Clone, Copy)]
struct Values {
    version: u8,
    echo: u8,
    mode: u8,
    result: i8,
    list: ChannelList,
}

// Its first five fields stand in every struct that is handed back: C's layouts give them other widths.
#[repr(C)]
#[derive(Clone, Copy)]
pub struct ReadPacket {
    pub used: usize,
    pub answer: u8,
    pub packet: u8,
    pub command: u8,
    pub size: u8,
    pub version: u8,
    pub echo: u8,
    pub mode: u8,
    pub result: i8,
    pub factor: u8,
    pub active: u8,
    pub lf: u8,
    pub inter: u8,
    pub main: u16,
    pub execution: u16,
}

// What the readers of commands without data hand back.
#[repr(C)]
#[derive(Clone, Copy)]
pub struct ReadEmpty {
    pub used: usize,
    pub answer: u16,
    pub packet: u16,
    pub command: u16,
    pub size: u16,
}

// What the readers of acknowledgements with a result alone hand back.
#[repr(C)]
#[derive(Clone, Copy)]
pub struct ReadResult {
    pub used: usize,
    pub answer: u16,
    pub packet: u16,
    pub command: u16,
    pub size: u8,
    pub result: i8,
}

const NO_VALUES: Values = Values {
    version: 0,
    echo: 0,
    mode: 0,
    result: 0,
    list: ChannelList {
        factor: 0,
        active: 0,
        lf: 0,
        inter: 0,
        main: 0,
        execution: 0,
    },
};

fn values_of(c: Command) -> Values
    ensures { result ≡ values_of c }
{
    match c {
        Command::Init { version } => Values {
            version,
            ..NO_VALUES
        },
        Command::InitAck { result } => Values {
            result,
            ..NO_VALUES
        },
        Command::UnknownCommand { echo } => Values { echo, ..NO_VALUES },
        Command::GetStimulationModeAck { result, mode } => Values {
            result,
            mode,
            ..NO_VALUES
        },
        Command::InitChannelListMode { list } => Values { list, ..NO_VALUES },
        Command::InitChannelListModeAck { result } => Values {
            result,
            ..NO_VALUES
        },
        Command::Watchdog | Command::GetStimulationMode | Command::Other { .. } => NO_VALUES,
    }
}

impl From<Read> for ReadPacket {
    #[tactic(auto, unfolding(crate::specs::Reports::as_packet))]
    fn from(r: Read) -> ReadPacket
        ensures { result ≡ as_packet r }
    {
        let c = r.command;
        let v = values_of(c);
        let list = v.list;
        ReadPacket {
            used: r.used,
            answer: r.answer,
            packet: r.packet,
            command: commands2::number(c),
            size: r.size,
            version: v.version,
            echo: v.echo,
            mode: v.mode,
            result: v.result,
            factor: list.factor,
            active: list.active,
            lf: list.lf,
            inter: list.inter,
            main: list.main,
            execution: list.execution as u16,
        }
    }
}

impl From<ReadPacket> for ReadEmpty {
    fn from(p: ReadPacket) -> ReadEmpty
        ensures { result ≡ as_empty p }
    {
        ReadEmpty {
            used: p.used,
            answer: p.answer as u16,
            packet: p.packet as u16,
            command: p.command as u16,
            size: p.size as u16,
        }
    }
}

#[unsafe(no_mangle)]
pub extern "C" fn yarrowbell_rehastim2_read(s: &[u8], out: &mut [u8]) -> ReadPacket
    ensures { (result ≡ as_packet (read_packet s.now (length out.old))) × (out.new ≡ data_put rehastim2 s.now out.old) }
{
    ReadPacket::from(reader2::read_packet(s, out))
}
