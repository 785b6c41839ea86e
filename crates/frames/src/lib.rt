// Command frames (document 01, "The four frames"; source 003, section 5): their layout, and whether a whole one is there.
#![tactic(auto)]

ghost use Rattle.std.specs.Prelude.{◌≡◌, [], ◌∷◌, ◌≤◌, ltb, length};
ghost use Rattle.bits.specs.Fields.{field};
ghost use Rattle.commands.specs.Answers.{◌when◌, first_of};
ghost use Rattle.commands.specs.Idents.{number};
ghost use Rattle.commands.specs.Refusals.{answer};
ghost use Rattle.frames.specs.Layout.{size_for};
ghost use Rattle.frames.specs.Reader.{has_high, later, shape_tests, reported};

use commands::idents::Ident;
use commands::refusals::Refusal;
use commands::{Init, Setting, Single, sizes};

// The lowest bit of Mode, and of Channel_Number, in the first byte of an entry.
pub const MODE_BIT: u64 = 5;

pub const CHANNEL_BIT: u64 = 4;

// A command's fields by value; those of other kinds are zero.
// Flat, as `fields_of` has them and the exports' C structs tell them.
#[derive(Clone, Copy, Debug, PartialEq, Eq)]
pub struct Fields {
    pub ident: u8,
    pub init: Init,
    pub entries: [Setting; 8],
    pub single: Single,
}

pub const NO_FIELDS: Fields = Fields {
    ident: 0,
    init: commands::NO_INIT,
    entries: [commands::NO_SETTING; 8],
    single: commands::NO_SINGLE,
};

// What the reader finds: the bytes used and the fields.
#[derive(Clone, Copy, Debug, PartialEq, Eq)]
pub struct Frame {
    pub used: u8,
    pub fields: Fields,
}

// The three bytes that Update and Single share; `lead` is Mode or Channel_Number.
#[derive(Clone, Copy, Debug, PartialEq, Eq)]
pub struct Entry {
    pub lead: u8,
    pub width: u16,
    pub current: u8,
}

// The Ident in a frame's first byte.
pub fn ident_of(first: u8) -> Ident
    ensures { number result ≡ field first 5 2 }
{
    match bits::take_field(first as u64, 5, 2) {
        0 => Ident::Init,
        1 => Ident::Update,
        2 => Ident::Stop,
        _ => Ident::Single,
    }
}

// How many bytes a frame has.
fn size_for(ident: Ident, count: usize) -> usize
    requires { count ≤ 8 }
    ensures { result ≡ size_for (number ident) count }
{
    match ident {
        Ident::Init => sizes::INIT,
        Ident::Update => sizes::FIRST + sizes::ENTRY * count,
        Ident::Stop => sizes::STOP,
        Ident::Single => sizes::SINGLE,
    }
}

// Whether a frame of n bytes is there, and whole.
#[tactic(auto, using(crate::proofs::Judging::part_high))]
fn whole(s: &[u8], n: usize) -> Result<(), Refusal>
    requires { 1 ≤ n }
    ensures { answer result ≡ first_of (1 when ltb (length s.now) n ∷ 17 when has_high (later n s.now) ∷ []) }
{
    if s.len() < n {
        return Err(Refusal::Unfinished);
    }
    if bits::first_high(&s[1..n]).is_some() {
        return Err(Refusal::Cut);
    }
    Ok(())
}

// What C is handed back: the frame that was found, or 0 bytes and all fields zero.
pub fn handed_back(outcome: Result<Frame, Refusal>) -> Frame
    ensures { record { answer = answer outcome; used = result.used; fields = result.fields } ≡ reported outcome }
{
    outcome.unwrap_or(Frame {
        used: 0,
        fields: NO_FIELDS,
    })
}

// The tests before the fields are read.
pub fn shape(s: &[u8], count: usize) -> Result<(), Refusal>
    ensures { answer result ≡ first_of (shape_tests s.now count) }
{
    if !commands::good_count(count) {
        return Err(Refusal::NotGood);
    }
    if s.is_empty() {
        return Err(Refusal::Unfinished);
    }
    let first = s[0];
    if !bits::is_high(first) {
        return Err(Refusal::LowByte);
    }
    whole(s, size_for(ident_of(first), count))
}
