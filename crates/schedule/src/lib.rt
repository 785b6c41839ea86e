// Document 01, "The machine": which channel of a module pulses at a position.
#![tactic(auto)]

ghost use Rattle.std.specs.Prelude.{◌&&◌, ◌≡◌, ◌≤◌};
ghost use Rattle.model.specs.Channels.{in_set};
ghost use Rattle.model.specs.Timing.{t2};
ghost use Rattle.model.specs.Modules.{first};
ghost use Rattle.model.specs.Slots.{in_turn, felt, hits, first_due, if_any};

use commands::{Init, Setting};
use model::{Module, Run};

// The tenths of a millisecond that a channel's slot takes.
const SLOT: u32 = 15;

// Whether a pulse of this width and current is released.
#[tactic(auto, unfolding(model::specs::Slots::felt))]
pub fn is_felt(width: u16, current: u8) -> bool
    ensures { result ≡ felt width current }
{
    (0 < width) & (0 < current)
}

// Whether a channel pulses in this cycle: a low frequency one by the skips that N_Factor counts. The next cycle's number may pass 32 bits.
#[tactic(auto, unfolding(model::specs::Slots::in_turn))]
fn in_turn(v: Init, cycle: u32, i: usize) -> bool
    ensures { result ≡ in_turn v cycle i }
{
    !timing::listed(v.lf, i) || (cycle as u64 + 1) % (v.factor as u64 + 1) == 0
}

// Whether the position is that of one of the Mode + 1 pulses whose first stands at `from`, `t` apart.
fn hit(position: u32, from: u32, t: u32, mode: u8) -> bool
    requires { (from ≤ 1000) × (t ≤ 1290) }
    ensures { result ≡ hits position from t mode }
{
    (0..mode as u32 + 1).any(|p| position == from + p * t)
}

// Whether channel i, set to x, pulses, its slot beginning at `from`.
fn is_due(r: &Run, i: usize, x: Setting, from: u32) -> bool
    requires { from ≤ 1000 }
    ensures { result ≡ in_set r.now.list.stim i && in_turn r.now.list r.now.cycle i && felt x.width x.current && hits r.now.position from (t2 r.now.list.group) x.mode }
{
    timing::listed(r.list.stim, i)
        && is_felt(x.width, x.current)
        && hit(
            r.position as u32,
            from,
            timing::group_period(r.list.group),
            x.mode,
        )
        && in_turn(r.list, r.cycle, i)
}

// The lowest due channel of a module, counted from 0. Counts the listed channels below to find a slot, which is kept for every listed one.
pub fn due(r: &Run, which: Module) -> Option<usize>
    ensures { result ≡ if_any (first_due r.now (first which) 4) }
{
    let first = which.first();
    let mut from = which.offset();
    // By index: it is the number of the channel, which the sets are asked for and which is given back.
    for i in first..first + model::CHANNELS as usize {
        if is_due(r, i, r.settings[i], from) {
            return Some(i);
        }
        if timing::listed(r.list.stim, i) {
            from += SLOT;
        }
    }
    None
}
