// A number of a script that has a range.
ghost use Rattle.std.specs.Prelude.{◌≤◌};

use crate::step::Unreadable;

#[derive(Clone, Copy, Debug, PartialEq, Eq)]
pub struct Within<const LOW: usize, const HIGH: usize> {
    pub value: usize,
    ghost low: { LOW ≤ value },
    ghost high: { value ≤ HIGH },
}

impl<const LOW: usize, const HIGH: usize> TryFrom<u32> for Within<LOW, HIGH> {
    ghost use Rattle.std.specs.Prelude.{◌≡◌, MatchResult};

    type Error = Unreadable;

    ghost try_from_gives = { λ n r. MatchResult r (λ x. x.value ≡ n) (λ _. ¬ ((LOW ≤ n) × (n ≤ HIGH))) };

    fn try_from(n: u32) -> Result<Self, Unreadable> {
        let value = n as usize;
        if LOW <= value && value <= HIGH {
            Ok(Within { value })
        } else {
            Err(Unreadable)
        }
    }
}
