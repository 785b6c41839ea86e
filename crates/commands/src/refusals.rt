// Document 01, "Numbers the box answers": why a call is refused, each reason with its number.
ghost use Rattle.std.specs.Prelude.{◌≡◌};
ghost use Rattle.commands.specs.Refusals.{number, answer};

// The answer of a call that is carried out.
pub const DONE: u8 = 0;

#[derive(Clone, Copy, Debug, PartialEq, Eq)]
pub enum Refusal {
    Unfinished = 1,
    LowByte = 2,
    WrongCheck = 3,
    NotGood = 4,
    Timing = 5,
    NoList = 6,
    ListRuns = 7,
    InHold = 8,
    OverLimit = 9,
    WhileTripped = 10,
    ProfileNotGood = 11,
    BoxNotGood = 12,
    RingOutside = 13,
    RingUnknown = 14,
    ClockAtEnd = 15,
    OutputTooShort = 16,
    Cut = 17,
}

impl Refusal {
    pub fn number(self) -> u8
        ensures { result ≡ number self }
    {
        self as u8
    }
}

// What a call answers: 0 where it is carried out, else the number of its refusal.
pub fn answer<T>(outcome: &Result<T, Refusal>) -> u8
    ensures { result ≡ answer outcome.now }
{
    match outcome {
        Ok(_) => DONE,
        Err(refusal) => refusal.number(),
    }
}
