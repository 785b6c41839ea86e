// The four commands (document 01, "The four frames"): their variables and good values; the reply byte.
#![tactic(auto)]

pub mod idents;
pub mod refusals;
pub mod sizes;

ghost use Rattle.std.specs.Prelude.{◌≡◌};
ghost use Rattle.commands.specs.Ranges.{within, good_pulse, good_count};
ghost use Rattle.commands.specs.Commands.{Command.init, Command.update, Command.single, is_zero, good_setting, good_entry, good_entries, good};
ghost use Rattle.commands.specs.Reply.{is_decision, reply};
ghost use Rattle.commands.specs.Refusals.{report};

use refusals::{DONE, Refusal};

// What an Init sets: N_Factor, Channel_Stim, Channel_Lf, Group_Time, Main_Time.
#[repr(C)]
#[derive(Clone, Copy, Debug, PartialEq, Eq)]
pub struct Init {
    pub factor: u8,
    pub stim: u8,
    pub lf: u8,
    pub group: u8,
    pub main: u16,
}

pub const NO_INIT: Init = Init {
    factor: 0,
    stim: 0,
    lf: 0,
    group: 0,
    main: 0,
};

// What an Update sets one channel to.
#[repr(C)]
#[derive(Clone, Copy, Debug, PartialEq, Eq)]
pub struct Setting {
    pub width: u16,
    pub mode: u8,
    pub current: u8,
}

pub const NO_SETTING: Setting = Setting {
    width: 0,
    mode: 0,
    current: 0,
};

// What a Single asks for; its channel is Channel_Number, 0 to 7.
#[repr(C)]
#[derive(Clone, Copy, Debug, PartialEq, Eq)]
pub struct Single {
    pub width: u16,
    pub channel: u8,
    pub current: u8,
}

pub const NO_SINGLE: Single = Single {
    width: 0,
    channel: 0,
    current: 0,
};

// What a writer reports, of frames or of packets: its answer and the bytes written, as the C struct has them.
#[repr(C)]
#[derive(Clone, Copy, Debug, PartialEq, Eq)]
pub struct Wrote {
    pub answer: u8,
    pub used: u8,
}

impl From<Result<u8, Refusal>> for Wrote {
    ghost from_gives = { λ outcome wrote. wrote ≡ report outcome };

    fn from(outcome: Result<u8, Refusal>) -> Self {
        Wrote {
            answer: refusals::answer(&outcome),
            used: outcome.unwrap_or(0),
        }
    }
}

// ---- good values

// The ranges of Width and Current, for Update and Single alike.
fn good_pulse(width: u16, current: u8) -> bool
    ensures { result ≡ good_pulse width current }
{
    ((width == 0) | (10..=500).contains(&width)) & (current <= 127)
}

pub fn good_init(v: Init) -> bool
    ensures { result ≡ good (init v) }
{
    v.factor <= 7 && v.stim != 0 && (3..=29).contains(&v.group) && (4..=2045).contains(&v.main)
}

// A setting's Mode, Width and Current.
pub fn good_setting(v: Setting) -> bool
    ensures { result ≡ good_setting v }
{
    (v.mode <= 2) & good_pulse(v.width, v.current)
}

// Whether a setting is zero throughout.
pub fn is_zero(v: Setting) -> bool
    ensures { result ≡ is_zero v }
{
    v == NO_SETTING
}

// A listed entry is good, any other is zero.
fn good_entry(v: Setting, listed: bool) -> bool
    ensures { result ≡ good_entry v listed }
{
    if listed { good_setting(v) } else { is_zero(v) }
}

fn good_entries(entries: [Setting; 8], count: usize) -> bool
    ensures { result ≡ good_entries entries count }
{
    entries
        .iter()
        .enumerate()
        .all(|(i, v)| good_entry(*v, i < count))
}

// The number of listed channels is 1 to 8.
pub fn good_count(count: usize) -> bool
    ensures { result ≡ good_count count }
{
    (1..=8).contains(&count)
}

// Eight entries and a count, as `yarrowbell_write_update` has them.
pub fn good_update(count: usize, entries: [Setting; 8]) -> bool
    ensures { result ≡ good (update count entries) }
{
    good_count(count) && good_entries(entries, count)
}

pub fn good_single(v: Single) -> bool
    ensures { result ≡ good (single v) }
{
    v.channel <= 7 && good_pulse(v.width, v.current)
}

// ---- the reply

// Whether an answer, by its number, decides a command: it was carried out, or refused. `yarrowbell_reply` takes any number.
pub fn is_decision(answer: u8) -> bool
    ensures { result ≡ is_decision answer }
{
    answer == DONE
        || (Refusal::WrongCheck.number()..=Refusal::WhileTripped.number()).contains(&answer)
}

// The reply byte to a command of this Ident, of which the two lowest bits count; 0 where the answer decides none.
pub fn reply_to(ident: u8, answer: u8) -> u8
    ensures { result ≡ reply ident answer }
{
    if is_decision(answer) {
        ident % 4 * 64 + u8::from(answer == DONE)
    } else {
        0
    }
}
