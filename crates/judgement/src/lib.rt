// Document 01, "Numbers the box answers": how a command with a right check and good values is judged.
#![tactic(auto)]

ghost use Rattle.std.specs.Prelude.{cond, not, ◌≡◌, [], ◌∷◌, ◌+◌, ◌<◌, ◌≤◌, ltb, get_or, set};
ghost use Rattle.commands.specs.Answers.{◌when◌, first_of};
ghost use Rattle.commands.specs.Refusals.{answer};
ghost use Rattle.commands.specs.Commands.{no_setting};
ghost use Rattle.model.specs.Channels.{silence, placed};
ghost use Rattle.model.specs.Timing.{t1, init_timing, update_timing};
ghost use Rattle.model.specs.Profiles.{over_limits};
ghost use Rattle.model.specs.State.{is_running};
ghost use Rattle.model.specs.Judgement.{hold_of};

use commands::refusals::Refusal;
use commands::{Init, Setting, Single};
use model::{Core, Module, Profile};

// An Init: 5; 9.
pub fn judge_init(p: Profile, v: Init) -> Result<(), Refusal>
    ensures { answer result ≡ first_of (5 when not (init_timing v) ∷ 9 when ltb (t1 v.main) p.shortest ∷ []) }
{
    if !timing::init_timing(v) {
        return Err(Refusal::Timing);
    }
    if timing::main_period(v.main) < p.shortest {
        return Err(Refusal::OverLimit);
    }
    Ok(())
}

// An Update's entries at their channels.
pub fn place(stim: u8, entries: [Setting; 8]) -> [Setting; 8]
    ensures { result ≡ placed stim entries }
{
    let mut settings = model::SILENCE;
    let mut next = 0;
    // By index: from `iter_mut` the proof does not learn that a setting not written stays.
    for i in 0..settings.len() {
        if timing::listed(stim, i) {
            settings[i] = entries[next];
            next += 1;
        }
    }
    settings
}

// An Update that asks for these settings: 6; 5; 9.
pub fn judge_update(p: Profile, m: Core, settings: [Setting; 8]) -> Result<(), Refusal>
    ensures { answer result ≡ first_of (6 when not (is_running m) ∷ 5 when not (update_timing m.run.list settings) ∷ 9 when over_limits p settings ∷ []) }
{
    if !m.is_running() {
        return Err(Refusal::NoList);
    }
    if !timing::update_timing(m.run.list, settings) {
        return Err(Refusal::Timing);
    }
    if limits::over_limits(p, settings) {
        return Err(Refusal::OverLimit);
    }
    Ok(())
}

// A Single's limits are Update's: its setting on its channel alone.
fn single_settings(v: Single) -> [Setting; 8]
    ensures { result ≡ set silence v.channel (record { mode = 0; width = v.width; current = v.current }) }
{
    let mut settings = model::SILENCE;
    let channel = v.channel as usize;
    // Not by `get_mut`: the proof does not learn what the array is after it.
    if channel < settings.len() {
        settings[channel] = Setting {
            mode: 0,
            width: v.width,
            current: v.current,
        };
    }
    settings
}

fn hold_of(m: Core, channel: u8) -> u8
    ensures { result ≡ hold_of m channel }
{
    match Module::of(channel) {
        Module::A => m.holda,
        Module::B => m.holdb,
    }
}

// A Single: 7; 8; 9.
pub fn judge_single(p: Profile, m: Core, v: Single) -> Result<(), Refusal>
    ensures { answer result ≡ first_of (7 when is_running m ∷ 8 when ltb 0 (hold_of m v.channel) ∷ 9 when over_limits p (set silence v.channel (record { mode = 0; width = v.width; current = v.current })) ∷ []) }
{
    if m.is_running() {
        return Err(Refusal::ListRuns);
    }
    if 0 < hold_of(m, v.channel) {
        return Err(Refusal::InHold);
    }
    if limits::over_limits(p, single_settings(v)) {
        return Err(Refusal::OverLimit);
    }
    Ok(())
}
