// Results of acknowledgements: signed bytes (source 000, section 5.1).
ghost use Rattle.std.specs.Prelude.{◌≡◌};
ghost use Rattle.commands2.specs.Results.{good_result};

// 0, no error, down to -8.
pub fn good(r: i8) -> bool
    ensures { result ≡ good_result r }
{
    (-8 <= r) & (r <= 0)
}
