// A frame's fields, where they stand.
ghost use Rattle.std.specs.Prelude.{◌≡◌, ◌+◌, ◌*◌, ◌≤◌, length};
ghost use Rattle.bits.specs.Fields.{field};
ghost use Rattle.frames.specs.Layout.{septets, init_word, init_of, entry_in, setting_in, single_in, entries_in};

use commands::{Init, Setting, Single, sizes};
use frames::Entry;

// The Check of all but Init.
pub fn check_of(first: u8) -> u64
    ensures { result ≡ field first 0 5 }
{
    bits::take_field(first as u64, 0, 5)
}

// Three bytes as one number of 21 bits.
#[tactic(auto, unfolding(bits::specs::Fields::below))]
fn join(a: u8, b: u8, c: u8) -> u64
    ensures { result ≡ septets a b c }
{
    bits::put_field(
        bits::put_field(bits::take_field(a as u64, 0, 7), 7, b as u64),
        7,
        c as u64,
    )
}

// The 42 bits of an Init frame.
#[tactic(auto, unfolding(bits::specs::Fields::below, frames::specs::Layout::init_word))]
pub fn init_word(s: &[u8]) -> u64
    requires { 6 ≤ length s.now }
    ensures { result ≡ init_word s.now }
{
    bits::put_field(join(s[0], s[1], s[2]), 21, join(s[3], s[4], s[5]))
}

pub fn init_of(w: u64) -> Init
    ensures { result ≡ init_of w }
{
    Init {
        factor: bits::take_field(w, 34, 3) as u8,
        stim: bits::take_field(w, 26, 8) as u8,
        lf: bits::take_field(w, 18, 8) as u8,
        group: bits::take_field(w, 11, 5) as u8,
        main: bits::take_field(w, 0, 11) as u16,
    }
}

// The entry from `at` on, its lead in bits 6 to `low` of its first byte.
#[tactic(auto, using(bits::proofs::Fields::field_lt), unfolding(bits::specs::Fields::below, frames::specs::Layout::entry_in))]
fn entry_in(low: u64, s: &[u8], at: usize) -> Entry
    requires { (low ≤ 7) × (at + 3 ≤ length s.now) }
    ensures { result ≡ entry_in low s.now at }
{
    let first = s[at] as u64;
    let width = bits::put_field(bits::take_field(first, 0, 2), 7, s[at + 1] as u64);
    Entry {
        lead: bits::take_field(first, low, 7 - low) as u8,
        width: width as u16,
        current: s[at + 2] % 128,
    }
}

fn setting_in(s: &[u8], at: usize) -> Setting
    requires { at + 3 ≤ length s.now }
    ensures { result ≡ setting_in s.now at }
{
    let e = entry_in(frames::MODE_BIT, s, at);
    Setting {
        mode: e.lead,
        width: e.width,
        current: e.current,
    }
}

pub fn single_in(s: &[u8]) -> Single
    requires { 4 ≤ length s.now }
    ensures { result ≡ single_in s.now }
{
    let e = entry_in(frames::CHANNEL_BIT, s, sizes::FIRST);
    Single {
        channel: e.lead,
        width: e.width,
        current: e.current,
    }
}

// The settings of `count` channels, the other entries zero.
pub fn entries_in(s: &[u8], count: usize) -> [Setting; 8]
    requires { (count ≤ 8) × (1 + 3 * count ≤ length s.now) }
    ensures { result ≡ entries_in s.now count }
{
    let mut entries = [commands::NO_SETTING; 8];
    for (i, entry) in entries[..count].iter_mut().enumerate() {
        *entry = setting_in(s, sizes::FIRST + sizes::ENTRY * i);
    }
    entries
}
