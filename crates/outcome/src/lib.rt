// What a call on any box record gives (document 01, "Numbers the box answers"): a refusal, or what the machine's step says and leaves. The
// ring's bytes are not touched here.
#![tactic(auto)]

ghost use Rattle.std.specs.Prelude.{◌≡◌};
ghost use Rattle.outcome.specs.Step.{refusal, refused_step};

use commands::refusals::Refusal;
use record::Box;
use said::{Records, Said};

// What a call gives back, and the box that it leaves.
#[derive(Clone, Copy)]
pub struct Stepped {
    pub said: Said,
    pub records: Records,
    pub next: Box,
}

// A refusal leaves all. Its answer is a number, and may be any: a type of fewer values would ask more of callers.
pub fn refuse(answer: u8, b: &Box) -> Stepped
    ensures { result ≡ refused_step answer b.now }
{
    Stepped {
        said: said::say(answer, 0),
        records: Records::Empty,
        next: *b,
    }
}

// 12 for a box record that is not good, else what the ring's own tests gave, which may be any number too.
pub fn refusal(b: &Box, ring: u8) -> u8
    ensures { result ≡ refusal b.now ring }
{
    if record::good_box(b) {
        return ring;
    }
    Refusal::BoxNotGood.number()
}
