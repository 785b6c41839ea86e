// The core of a box record (document 01, last paragraph of "The machine"): its holds and its state, a running list with its settings,
// or the zeros of a box that is not running.
#![tactic(auto)]

ghost use Rattle.std.specs.Prelude.{true, cond, ◌≡◌, get_or};
ghost use Rattle.commands.specs.Commands.{no_setting};
ghost use Rattle.model.specs.Below.{all_below};
ghost use Rattle.model.specs.State.{is_running};
ghost use Rattle.model.specs.Timing.{init_timing};
ghost use Rattle.model.specs.Good.{good_list, all_zero, zero_run};
ghost use Rattle.running.specs.Core.{good_at, fits, waiting_fits, good_run, good_core};

use commands::{Init, Setting};
use model::{Core, Profile, Run};

fn good_list(v: Init) -> bool
    ensures { result ≡ good_list v }
{
    commands::good_init(v)
}

// Tests are joined by `&` here, without leaving early and without `==` on a whole run: with those each tick took more instructions.
fn all_zero(settings: [Setting; 8]) -> bool
    ensures { result ≡ all_zero settings }
{
    settings
        .iter()
        .fold(true, |zero, x| zero & commands::is_zero(*x))
}

// Good, and zero where the channel is not listed.
fn good_at(stim: u8, i: usize, x: Setting) -> bool
    ensures { result ≡ good_at stim i x }
{
    commands::good_setting(x) & (timing::listed(stim, i) | commands::is_zero(x))
}

fn all_good(stim: u8, settings: [Setting; 8]) -> bool
    ensures { result ≡ all_below 8 (λ i. good_at stim i (get_or settings i no_setting)) }
{
    settings
        .iter()
        .enumerate()
        .fold(true, |good, (i, x)| good & good_at(stim, i, *x))
}

fn fit(p: Profile, v: Init, settings: [Setting; 8]) -> bool
    ensures { result ≡ fits p v settings }
{
    all_good(v.stim, settings)
        & !limits::over_limits(p, settings)
        & timing::update_timing(v, settings)
}

// The waiting update: its settings fit, or are zero while none waits, which then fit the list too.
fn good_waiting(p: Profile, v: Init, waits: u32, waiting: [Setting; 8]) -> bool
    ensures { init_timing v ≡ true → result ≡ waiting_fits p v waits waiting }
{
    if waits == 1 {
        return fit(p, v, waiting);
    }
    (waits == 0) & all_zero(waiting)
}

// Profile and clock are handed on one by one: a struct of the two would be taken apart again in each function.
fn good_run(p: Profile, clock: u32, r: Run) -> bool
    ensures { result ≡ good_run p clock r }
{
    let v = r.list;
    let period = timing::main_period(v.main);
    good_list(v)
        & timing::init_timing(v)
        & (p.shortest <= period)
        & fit(p, v, r.settings)
        & good_waiting(p, v, r.waits, r.waiting)
        & ((r.position as u32) < period)
        & (r.cycle <= clock)
        & (r.watch < p.watchdog)
}

fn zero_run(r: Run) -> bool
    ensures { result ≡ zero_run r }
{
    (r.list == commands::NO_INIT)
        & all_zero(r.settings)
        & (r.waits == 0)
        & all_zero(r.waiting)
        & (r.position == 0)
        & (r.cycle == 0)
        & (r.watch == 0)
}

fn good_by_state(p: Profile, clock: u32, m: Core) -> bool
    ensures { result ≡ cond (is_running m) (good_run p clock m.run) (zero_run m.run) }
{
    if m.is_running() {
        good_run(p, clock, m.run)
    } else {
        zero_run(m.run)
    }
}

// The holds, the state, and the run that belongs to it.
pub fn good_core(p: Profile, clock: u32, m: Core) -> bool
    ensures { result ≡ good_core p clock m }
{
    (m.holda <= model::HOLD)
        & (m.holdb <= model::HOLD)
        & (m.state <= model::TRIPPED)
        & good_by_state(p, clock, m)
}
