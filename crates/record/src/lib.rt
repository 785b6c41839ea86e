// The box record (document 01, last paragraph of "The machine"): a whole box as numbers, and the test of it.
#![tactic(auto)]

ghost use Rattle.std.specs.Prelude.{◌≡◌};
ghost use Rattle.record.specs.Box.{good_box};

use model::{Core, Profile};
use partial::PartialFrame;
use trace::Ring;

// A box: numbers only, so that any record has a defined answer.
#[repr(C)]
#[derive(Clone, Copy)]
pub struct Box {
    pub profile: Profile,
    pub clock: u32,
    pub core: Core,
    pub partial: PartialFrame,
    pub ring: Ring,
}

// Whether a box record is good.
pub fn good_box(b: &Box) -> bool
    ensures { result ≡ good_box b.now }
{
    limits::good_profile(b.profile)
        & ring::good_ring(b.ring)
        & running::good_core(b.profile, b.clock, b.core)
        & partial::good_partial(b.core, b.partial)
}
