// The numbers of a script's line.
ghost use Rattle.std.specs.Prelude.{◌≡◌, min, SomeIff};
ghost use Rattle.std.specs.Str.Parse.{digits_value};
ghost use Rattle.cases.specs.Numbers.{base_of, IsNumber};

use std::str;

// How the digits of a number are read.
#[derive(Clone, Copy, Debug, PartialEq, Eq)]
pub enum Radix {
    Decimal = 10,
    Hexadecimal = 16,
}

// A word of digits alone, those from ten on in capital letters, where its number has 32 bits.
#[tactic(auto, using(crate::proofs::Words::number_text))]
pub fn number(word: &[u8], radix: Radix) -> Option<u32>
    ensures { SomeIff result (IsNumber (base_of radix) word.now) (digits_value (base_of radix) word.now) }
{
    // `from_str_radix` takes a sign and small letters too.
    if word
        .iter()
        .all(|c| c.is_ascii_digit() || c.is_ascii_uppercase())
    {
        let digits = str::from_utf8(word).ok()?;
        u32::from_str_radix(digits, radix as u32).ok()
    } else {
        None
    }
}

// A number for a field of eight bits, or the field's largest.
pub fn byte(n: u32) -> u8
    ensures { result ≡ min n 255 }
{
    u8::try_from(n).unwrap_or(u8::MAX)
}

// A number for a field of sixteen bits, or the field's largest.
pub fn short(n: u32) -> u16
    ensures { result ≡ min n 65535 }
{
    u16::try_from(n).unwrap_or(u16::MAX)
}
