// Contents of packets of the RehaMove3, read (request 13; source 002, sections 2.2 and 4).
#![tactic(auto)]

ghost use Rattle.std.specs.Prelude.{◌≡◌, get_or, pos};
ghost use Rattle.commands3.specs.Commands.{alone};
ghost use Rattle.decode3.specs.Decoded.{decoded};
ghost use Rattle.decode3.specs.Parts.{told, data_decoded};

use commands3::{Command, Message, numbers};

// What a content says: packet number, message and the net charge of its pulse.
#[derive(Clone, Copy)]
pub struct Decoded {
    pub packet: u8,
    pub message: Message,
    pub charge: i32,
}

// A command without points, where its data is right.
#[tactic(auto, unfolding(crate::specs::Parts::told))]
fn tell(right: bool, packet: u8, command: Command) -> Option<Decoded>
    ensures { result ≡ told right packet (alone command) (pos 0) }
{
    if !right {
        return None;
    }
    let message = commands3::alone(command);
    Some(Decoded {
        packet,
        message,
        charge: 0,
    })
}

// ---- the data of each command

fn config_in(packet: u8, first: u8, d: &[u8]) -> Option<Decoded>
    requires { first ≡ get_or d.now 0 0 }
    ensures { result ≡ data_decoded packet 2 d.now }
{
    let read = points3::pulse_in(d)?;
    let command = Command::LlChannelConfig {
        execution: first / 128,
        channel: first / 32 % 4,
    };
    let pulse = read.pulse;
    let message = Message { command, pulse };
    Some(Decoded {
        packet,
        message,
        charge: read.charge,
    })
}

fn data_in(packet: u8, number: u16, d: &[u8]) -> Option<Decoded>
    ensures { result ≡ data_decoded packet number d.now }
{
    let size = d.len();
    let first = slices::byte_at(d, 0);
    match number {
        numbers::LL_INIT => {
            let voltage = first / 2 % 8;
            let clear = (first / 16 == 0) & (first % 2 == 0);
            let right = (size == 1) & (clear & (voltage <= 6));
            tell(right, packet, Command::LlInit { voltage })
        }
        numbers::LL_INIT_ACK => {
            let right = (size == 1) & commands3::good_result(first);
            tell(right, packet, Command::LlInitAck { result: first })
        }
        numbers::LL_CHANNEL_CONFIG => config_in(packet, first, d),
        numbers::LL_CHANNEL_CONFIG_ACK => {
            let electrode = slices::byte_at(d, 1);
            let good = commands3::good_result(first) & commands3::good_electrode(first, electrode);
            let command = Command::LlChannelConfigAck {
                result: first,
                electrode,
            };
            tell((size == 2) & good, packet, command)
        }
        numbers::LL_STOP => tell(size == 0, packet, Command::LlStop),
        numbers::LL_STOP_ACK => {
            let right = (size == 1) & commands3::good_result(first);
            tell(right, packet, Command::LlStopAck { result: first })
        }
        _ => tell(true, packet, Command::Other { number }),
    }
}

// What a content says, where it is right. Its first two bytes are a number, the high one first.
pub fn decode(content: &[u8]) -> Option<Decoded>
    ensures { result ≡ decoded content.now }
{
    let (head, d) = content.split_first_chunk::<2>()?;
    let h = u16::from_be_bytes(*head);
    data_in((h / 1024) as u8, h % 1024, d)
}
