// Document 01, "Profile": the ranges of a profile's numbers, and what is over its limits.
#![tactic(auto)]

ghost use Rattle.std.specs.Prelude.{◌≡◌, ◌<◌};
ghost use Rattle.model.specs.Below.{all_below};
ghost use Rattle.model.specs.Profiles.{good_limits, good_profile, over_at, over_limits};

use commands::Setting;
use model::Profile;

// The limits of all channels. Tests are joined by `&` and `|`, without leaving early, as each tick makes them.
fn good_limits(p: Profile) -> bool
    ensures { result ≡ all_below 8 (good_limits p) }
{
    p.currents.iter().fold(true, |good, x| good & (*x <= 127))
        & p.widths.iter().fold(true, |good, x| good & (*x <= 500))
}

// Whether each number of a profile is in its range.
#[tactic(auto, unfolding(model::specs::Profiles::good_profile))]
pub fn good_profile(p: Profile) -> bool
    ensures { result ≡ good_profile p }
{
    good_limits(p)
        & (p.charge <= 63500)
        & (30..=10235).contains(&p.shortest)
        & (1..=600000).contains(&p.watchdog)
}

// Current, width or charge of one channel.
#[tactic(auto, unfolding(model::specs::Profiles::over_at))]
fn over_at(p: Profile, i: usize, x: Setting) -> bool
    requires { i < 8 }
    ensures { result ≡ over_at p i x }
{
    let charge = x.current as u32 * x.width as u32;
    (p.currents[i] < x.current) | (p.widths[i] < x.width) | (p.charge < charge)
}

// Whether one of the eight channels' settings is over a limit.
pub fn over_limits(p: Profile, settings: [Setting; 8]) -> bool
    ensures { result ≡ over_limits p settings }
{
    settings
        .iter()
        .enumerate()
        .fold(false, |over, (i, x)| over | over_at(p, i, *x))
}
