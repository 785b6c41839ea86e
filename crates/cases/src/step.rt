// The steps of a script, and how a line asks for one.
ghost use Rattle.std.specs.Prelude.{◌≤◌, length};

use crate::numbers::{Radix, byte, number, short};
use crate::within::Within;
use arrayvec::{ArrayVec, CapacityError};
use model::Profile;
use std::error::Error;
use std::fmt;
use trace::Part;

// The numbers of a line. The longest frame, an Update of eight channels, has 25 bytes.
type Numbers = ArrayVec<u32, 32>;

pub type Bytes = ArrayVec<u8, 32>;

#[derive(Drop)]
pub enum Step {
    // An empty line, or a remark.
    Nothing,

    // A box, with the last box's profile where none is given.
    Make {
        capacity: u32,
        profile: Option<Profile>,
    },

    Send(Bytes),
    Stops(u32),
    Tick(u32),

    // The readout to an output of so many bytes.
    Read(Within<0, 4096>),

    Frame {
        channels: usize,
        bytes: Bytes,
    },

    Show,

    // What a script sets from outside.
    Part(Part),
    Put {
        place: Within<0, 4111>,
        byte: u8,
    },
    Clock(u32),
    Hold(u8),
    Limits {
        channel: Within<1, 8>,
        current: u8,
        width: u16,
    },
}

// Said of a line that asks for no step.
#[derive(Clone, Copy, Debug, PartialEq, Eq)]
pub struct Unreadable;

impl fmt::Display for Unreadable {
    fn fmt<W: fmt::Write>(&self, f: &mut fmt::Formatter<W>) -> fmt::Result {
        f.write_str("unreadable line")
    }
}

impl Error for Unreadable {}

impl<T: Drop> From<CapacityError<T>> for Unreadable {
    fn from(_error: CapacityError<T>) -> Unreadable {
        Unreadable
    }
}

impl TryFrom<&[u8]> for Step {
    type Error = Unreadable;

    fn try_from(line: &[u8]) -> Result<Step, Unreadable> {
        if line.is_empty() || line.starts_with(b"#") {
            return Ok(Step::Nothing);
        }
        let mut words = line.split(|c| *c == b' ');
        let name = letters(words.next().unwrap_or(b""));
        let radix = match name {
            b"send" | b"frame" => Radix::Hexadecimal,
            _ => Radix::Decimal,
        };
        let mut numbers = Numbers::new();
        for word in words {
            numbers.try_push(number(word, radix).ok_or(Unreadable)?)?;
        }
        Step::named(name, numbers.as_slice())
    }
}

// Of a name's letters the last eight count, and of those no zeros in front.
fn letters(word: &[u8]) -> &[u8] {
    let last = &word[word.len().saturating_sub(8)..];
    let zeros = last.iter().take_while(|c| **c == 0).count();
    &last[zeros..]
}

fn bytes(numbers: &[u32]) -> Bytes
    requires { length numbers.now ≤ 32 }
{
    let mut bytes = Bytes::new();
    for n in numbers {
        bytes.push(byte(*n));
    }
    bytes
}

impl Step {
    fn named(name: &[u8], numbers: &[u32]) -> Result<Step, Unreadable>
        requires { length numbers.now ≤ 32 }
    {
        Ok(match (name, numbers) {
            (b"make", [capacity]) => Step::Make {
                capacity: *capacity,
                profile: None,
            },
            (b"make", [capacity, watchdog, shortest, current, width, charge]) => Step::Make {
                capacity: *capacity,
                profile: Some(Profile {
                    currents: [byte(*current); 8],
                    widths: [short(*width); 8],
                    charge: *charge,
                    shortest: *shortest,
                    watchdog: *watchdog,
                }),
            },
            (b"send", [_, ..]) => Step::Send(bytes(numbers)),
            (b"stops", [count]) => Step::Stops(*count),
            (b"tick", [count]) => Step::Tick(*count),
            (b"read", [room]) => Step::Read(Within::try_from(*room)?),
            (b"frame", [channels, frame @ ..]) => Step::Frame {
                channels: *channels as usize,
                bytes: bytes(frame),
            },
            (b"show", []) => Step::Show,
            (b"part", [offset, size]) => Step::Part(Part {
                offset: *offset as usize,
                size: *size as usize,
            }),
            (b"put", [place, n]) => Step::Put {
                place: Within::try_from(*place)?,
                byte: byte(*n),
            },
            (b"clock", [clock]) => Step::Clock(*clock),
            (b"hold", [hold]) => Step::Hold(byte(*hold)),
            (b"channel", [channel, current, width]) => Step::Limits {
                channel: Within::try_from(*channel)?,
                current: byte(*current),
                width: short(*width),
            },
            _ => return Err(Unreadable),
        })
    }
}
