// The low-level commands of the RehaMove3 (request 13; source 002, section 4): their numbers, their data bytes and their good values.
#![tactic(auto)]

pub mod numbers;

ghost use Rattle.std.specs.Prelude.{◌≡◌};
ghost use Rattle.commands3.specs.Commands.{number_of, good_result, good_electrode, alone};

use charge::{NO_POINT, Pulse};

#[derive(Clone, Copy)]
pub enum Command {
    LlInit { voltage: u8 },
    LlInitAck { result: u8 },
    // Its points stand beside it, in the message.
    LlChannelConfig { execution: u8, channel: u8 },
    LlChannelConfigAck { result: u8, electrode: u8 },
    LlStop,
    LlStopAck { result: u8 },
    // Any other command: its number alone.
    Other { number: u16 },
}

// A command with the pulse of a channel config: zeros beside any other.
#[derive(Clone, Copy)]
pub struct Message {
    pub command: Command,
    pub pulse: Pulse,
}

pub fn number(c: Command) -> u16
    ensures { result ≡ number_of c }
{
    match c {
        Command::LlInit { .. } => numbers::LL_INIT,
        Command::LlInitAck { .. } => numbers::LL_INIT_ACK,
        Command::LlChannelConfig { .. } => numbers::LL_CHANNEL_CONFIG,
        Command::LlChannelConfigAck { .. } => numbers::LL_CHANNEL_CONFIG_ACK,
        Command::LlStop => numbers::LL_STOP,
        Command::LlStopAck { .. } => numbers::LL_STOP_ACK,
        Command::Other { number } => number,
    }
}

pub const NO_PULSE: Pulse = Pulse {
    number: 0,
    points: [NO_POINT; 16],
};

// A command without points.
pub fn alone(command: Command) -> Message
    ensures { result ≡ alone command }
{
    Message {
        command,
        pulse: NO_PULSE,
    }
}

// ---- good values of acknowledgements

// Source 002, section 6.
pub fn good_result(res: u8) -> bool
    ensures { result ≡ good_result res }
{
    matches!(res, 0 | 1 | 2 | 4 | 7 | 10 | 11)
}

// A channel where the result is an electrode error, any byte else.
pub fn good_electrode(res: u8, electrode: u8) -> bool
    ensures { result ≡ good_electrode res electrode }
{
    res != 10 || electrode <= 3
}
