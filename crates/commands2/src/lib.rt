// The commands of ScienceMode2 that are carried (source 000, sections 3 and 4): their numbers, their data bytes and their good values.
#![tactic(auto)]

pub mod numbers;
mod results;

ghost use Rattle.std.specs.Prelude.{◌≡◌, [], ◌∷◌, length};
ghost use Rattle.commands2.specs.Commands.{number_of, data_of, good_list, good_mode, good, list_in, command_of, is_other, right};
ghost use Rattle.commands2.specs.ByValue.{by_value, data_by_value};

// What an InitChannelListMode sets (section 4.3): the low frequency factor, the active channels, the active low frequency channels, the inter
// pulse interval and the main stimulation interval as they are coded, the channel execution.
#[derive(Clone, Copy)]
pub struct ChannelList {
    pub factor: u8,
    pub active: u8,
    pub lf: u8,
    pub inter: u8,
    pub main: u16,
    pub execution: u8,
}

// Values as C gives them to the writers, good or not (`good`).
#[derive(Clone, Copy)]
pub enum Command {
    Init { version: u8 },
    InitAck { result: i8 },
    UnknownCommand { echo: u8 },
    Watchdog,
    GetStimulationMode,
    GetStimulationModeAck { result: i8, mode: u8 },
    InitChannelListMode { list: ChannelList },
    InitChannelListModeAck { result: i8 },
    // Any other command: its number alone.
    Other { number: u8 },
}

pub fn number(c: Command) -> u8
    ensures { result ≡ number_of c }
{
    match c {
        Command::Init { .. } => numbers::INIT,
        Command::InitAck { .. } => numbers::INIT_ACK,
        Command::UnknownCommand { .. } => numbers::UNKNOWN_COMMAND,
        Command::Watchdog => numbers::WATCHDOG,
        Command::GetStimulationMode => numbers::GET_STIMULATION_MODE,
        Command::GetStimulationModeAck { .. } => numbers::GET_STIMULATION_MODE_ACK,
        Command::InitChannelListMode { .. } => numbers::INIT_CHANNEL_LIST_MODE,
        Command::InitChannelListModeAck { .. } => numbers::INIT_CHANNEL_LIST_MODE_ACK,
        Command::Other { number } => number,
    }
}

// ---- good values

fn good_list(list: ChannelList) -> bool
    ensures { result ≡ good_list list }
{
    (list.factor <= 7) & (list.main <= 2048) & (list.execution <= 1)
}

fn good_mode(there: bool, mode: u8) -> bool
    ensures { result ≡ good_mode there mode }
{
    if there { mode <= 2 } else { mode == 0 }
}

pub fn good(c: Command) -> bool
    ensures { result ≡ good c }
{
    match c {
        Command::Init { .. }
        | Command::UnknownCommand { .. }
        | Command::Watchdog
        | Command::GetStimulationMode => true,
        Command::InitAck { result } => results::good(result),
        Command::GetStimulationModeAck { result, mode } => {
            results::good(result) & good_mode(result == 0, mode)
        }
        Command::InitChannelListMode { list } => good_list(list),
        Command::InitChannelListModeAck { result } => results::good(result),
        Command::Other { .. } => false,
    }
}

// ---- data bytes

// The data bytes by value, zeros behind them, and how many they are. As an ArrayVec they cost a short packet half as much time again.
#[derive(Clone, Copy)]
pub struct Data {
    pub bytes: [u8; 7],
    pub size: usize,
}

const NONE: Data = Data {
    bytes: [0; 7],
    size: 0,
};

#[tactic(auto, unfolding(crate::specs::ByValue::by_value))]
fn one(b: u8) -> Data
    ensures { result ≡ by_value (b ∷ []) }
{
    Data {
        bytes: [b, 0, 0, 0, 0, 0, 0],
        size: 1,
    }
}

// The mode byte is there exactly if the result is 0.
#[tactic(auto, using(crate::proofs::Bytes::no_error_lem, crate::proofs::Bytes::error, crate::proofs::Bytes::byte_is), unfolding(crate::specs::ByValue::by_value))]
fn mode_data(res: i8, mode: u8) -> Data
    ensures { result ≡ data_by_value (Command.GetStimulationModeAck res mode) }
{
    let b = res.cast_unsigned();
    if res == 0 {
        return Data {
            bytes: [b, mode, 0, 0, 0, 0, 0],
            size: 2,
        };
    }
    one(b)
}

// The main interval has its high byte first.
#[tactic(auto, unfolding(crate::specs::ByValue::by_value))]
fn list_data(list: ChannelList) -> Data
    ensures { result ≡ data_by_value (Command.InitChannelListMode list) }
{
    let [high, low] = list.main.to_be_bytes();
    Data {
        bytes: [
            list.factor,
            list.active,
            list.lf,
            list.inter,
            high,
            low,
            list.execution,
        ],
        size: 7,
    }
}

#[tactic(auto, using(crate::proofs::Bytes::byte_is), unfolding(crate::specs::ByValue::by_value))]
pub fn data_of(c: Command) -> Data
    ensures { result ≡ data_by_value c }
{
    match c {
        Command::Init { version } => one(version),
        Command::InitAck { result } => one(result.cast_unsigned()),
        Command::UnknownCommand { echo } => one(echo),
        Command::GetStimulationModeAck { result, mode } => mode_data(result, mode),
        Command::InitChannelListMode { list } => list_data(list),
        Command::InitChannelListModeAck { result } => one(result.cast_unsigned()),
        Command::Watchdog | Command::GetStimulationMode | Command::Other { .. } => NONE,
    }
}

// ---- reading

fn list_in(d: [u8; 7]) -> ChannelList
    ensures { result ≡ list_in d }
{
    let [factor, active, lf, inter, high, low, execution] = d;
    ChannelList {
        factor,
        active,
        lf,
        inter,
        main: u16::from_be_bytes([high, low]),
        execution,
    }
}

// The command of a number, with its values from the first seven data bytes.
#[tactic(auto, using(crate::proofs::Bytes::signed_is), unfolding(crate::specs::Commands::command_of))]
pub fn command_of(number: u8, d: [u8; 7]) -> Command
    ensures { result ≡ command_of number d }
{
    let first = d[0];
    let result = first.cast_signed();
    match number {
        numbers::INIT => Command::Init { version: first },
        numbers::INIT_ACK => Command::InitAck { result },
        numbers::UNKNOWN_COMMAND => Command::UnknownCommand { echo: first },
        numbers::WATCHDOG => Command::Watchdog,
        numbers::GET_STIMULATION_MODE => Command::GetStimulationMode,
        numbers::GET_STIMULATION_MODE_ACK => Command::GetStimulationModeAck { result, mode: d[1] },
        numbers::INIT_CHANNEL_LIST_MODE => Command::InitChannelListMode { list: list_in(d) },
        numbers::INIT_CHANNEL_LIST_MODE_ACK => Command::InitChannelListModeAck { result },
        _ => Command::Other { number },
    }
}

// How many data bytes a command asks for: told apart from data_of, for reading makes no bytes.
#[tactic(auto, using(crate::proofs::Bytes::no_error_lem, crate::proofs::Bytes::error))]
fn data_size(c: Command) -> usize
    ensures { result ≡ length (data_of c) }
{
    match c {
        Command::Init { .. }
        | Command::InitAck { .. }
        | Command::UnknownCommand { .. }
        | Command::InitChannelListModeAck { .. } => 1,
        Command::GetStimulationModeAck { result, .. } => if result == 0 { 2 } else { 1 },
        Command::InitChannelListMode { .. } => 7,
        Command::Watchdog | Command::GetStimulationMode | Command::Other { .. } => 0,
    }
}

// A carried command has as many data bytes as it asks for, and good values; of another nothing is asked.
pub fn right(c: Command, size: usize) -> bool
    ensures { result ≡ right c size }
{
    match c {
        Command::Other { .. } => true,
        _ => good(c) & (data_size(c) == size),
    }
}
