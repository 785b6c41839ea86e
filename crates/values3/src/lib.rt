// Which messages of the RehaMove3 may be written (request 13): good values, no pulse beside a command that has none, and a net charge of zero.
#![tactic(auto)]

ghost use Rattle.std.specs.Prelude.{◌&&◌, ◌≡◌};
ghost use Rattle.charge.specs.Charge.{pulse_good, charge_of, is_zero};
ghost use Rattle.commands3.specs.Commands.{is_no_pulse, good};

use charge::Pulse;
use commands3::{Command, Message, NO_PULSE};

fn is_no_pulse(p: Pulse) -> bool
    ensures { result ≡ is_no_pulse p }
{
    p == NO_PULSE
}

fn is_balanced(p: Pulse) -> bool
    ensures { result ≡ pulse_good p && is_zero (charge_of p) }
{
    charge::weigh(p) == Some(0)
}

pub fn good(m: Message) -> bool
    ensures { result ≡ good m }
{
    let c = m.command;
    let p = m.pulse;
    match c {
        Command::LlInit { voltage } => (voltage <= 6) & is_no_pulse(p),
        Command::LlInitAck { result } => commands3::good_result(result) & is_no_pulse(p),
        Command::LlChannelConfig { execution, channel } => {
            (execution <= 1) & (channel <= 3) & is_balanced(p)
        }
        Command::LlChannelConfigAck { result, electrode } => {
            commands3::good_result(result)
                & commands3::good_electrode(result, electrode)
                & is_no_pulse(p)
        }
        Command::LlStop => is_no_pulse(p),
        Command::LlStopAck { result } => commands3::good_result(result) & is_no_pulse(p),
        Command::Other { .. } => false,
    }
}
