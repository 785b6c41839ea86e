// Channel counts, periods and the timing rules.
#![tactic(auto)]

ghost use Rattle.std.specs.Prelude.{◌≡◌, ◌+◌, ◌≤◌};
ghost use Rattle.model.specs.Channels.{in_set, many, channels};
ghost use Rattle.model.specs.Timing.{t1, t2, keeps_modules, keeps_main, largest_mode, init_timing, update_timing};

use commands::{Init, Setting};

// Whether channel i, counted from 0, is in a set.
#[tactic(auto, unfolding(model::specs::Channels::in_set))]
pub fn listed(set: u8, i: usize) -> bool
    ensures { result ≡ in_set set i }
{
    bits::take_field(set as u64, i as u64, 1) == 1
}

// How many of the n channels from `first` on are in the set.
fn count_in(set: u8, first: usize, n: usize) -> usize
    requires { first + n ≤ 8 }
    ensures { (result ≡ many set first n) × (result ≤ n) }
{
    (first..first + n).filter(|i| listed(set, *i)).count()
}

// How many channels a list has.
pub fn channels(stim: u8) -> usize
    ensures { (result ≡ channels stim) × (result ≤ 8) }
{
    count_in(stim, 0, 8)
}

// t1, in tenths of a millisecond.
#[tactic(auto, unfolding(model::specs::Timing::t1))]
pub fn main_period(main: u16) -> u32
    ensures { result ≡ t1 main }
{
    5 * main as u32 + 10
}

// t2, in tenths of a millisecond.
#[tactic(auto, unfolding(model::specs::Timing::t2))]
pub fn group_period(group: u8) -> u32
    ensures { (result ≡ t2 group) × (result ≤ 1290) }
{
    5 * group as u32 + 15
}

#[tactic(auto, unfolding(model::specs::Timing::keeps_modules))]
fn keeps_modules(v: Init) -> bool
    ensures { result ≡ keeps_modules v }
{
    let most = count_in(v.stim, 0, 4).max(count_in(v.stim, 4, 4));
    15 * most <= group_period(v.group) as usize
}

// The second rule, for this largest Mode.
fn keeps_main(v: Init, mode: u8) -> bool
    ensures { result ≡ keeps_main v (mode + 1) }
{
    (mode as u32 + 1) * group_period(v.group) + 15 <= main_period(v.main)
}

// Whether an Init keeps both rules.
pub fn init_timing(v: Init) -> bool
    ensures { result ≡ init_timing v }
{
    keeps_modules(v) && keeps_main(v, 0)
}

fn largest_mode(settings: [Setting; 8]) -> u8
    ensures { result ≡ largest_mode settings }
{
    settings.iter().map(|x| x.mode).max().unwrap_or(0)
}

// Whether settings keep the second rule of the list.
pub fn update_timing(v: Init, settings: [Setting; 8]) -> bool
    ensures { result ≡ update_timing v settings }
{
    keeps_main(v, largest_mode(settings))
}
