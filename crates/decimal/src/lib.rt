// Numbers as text (request 03): decimal, without leading zeros.
#![tactic(auto)]

ghost use Rattle.std.specs.Prelude.{◌≡◌, true, ◌≤◌, length};
ghost use Rattle.slices.specs.Stored.{placed, stored_in};
ghost use Rattle.decimal.specs.Decimal.{digits, all_digits, value_from};
ghost use Rattle.decimal.specs.Front.{front, small, number_in_front};

// A number in front of some bytes, and how many of them it takes.
#[derive(Clone, Copy)]
pub struct Number {
    pub value: u32,
    pub size: usize,
}

// The digits of a number of 32 bits, at most.
const MOST_DIGITS: usize = 10;

// How many digits a number has, ten at most.
pub fn count(n: u32) -> usize
    ensures { (result ≡ length (digits n)) × (result ≤ 10) }
{
    n.checked_ilog10().unwrap_or(0) as usize + 1
}

// Fills out with the number's digits, from the last to the first.
fn put(out: &mut [u8], n: u32)
    requires { length out.old ≡ length (digits n) }
    ensures { out.new ≡ digits n }
{
    let mut left = n;
    for to in (0..out.len()).rev() {
        out[to] = b'0' + (left % 10) as u8;
        left /= 10;
    }
}

// Writes the number into out, from place `at` on, if there is room for it: the place behind it.
#[tactic(auto, using(slices::proofs::Stored::placed_yes, slices::proofs::Stored::placed_no, slices::proofs::Stored::store_no, slices::proofs::Stored::store_parts))]
pub fn write(out: &mut [u8], at: usize, n: u32) -> Option<usize>
    ensures behind { result ≡ placed out.old at (digits n) }
    ensures bytes { out.new ≡ stored_in out.old at (digits n) }
{
    let end = at.checked_add(count(n))?;
    if out.len() < end {
        return None;
    }
    put(&mut out[at..end], n);
    Some(end)
}

// The digits in front of s, as far as they go.
fn digits_in_front(s: &[u8]) -> &[u8]
    ensures { result.now ≡ front s.now }
{
    let size = s.iter().position(|b| !b.is_ascii_digit());
    &s[..size.unwrap_or(s.len())]
}

// The number of 32 bits that digits stand for, if it is one.
fn value(digits: &[u8]) -> Option<u32>
    requires { all_digits digits.now ≡ true }
    ensures { result ≡ small (value_from 0 digits.now) }
{
    let mut value: u32 = 0;
    for digit in digits {
        value = value.checked_mul(10)?.checked_add((*digit - b'0') as u32)?;
    }
    Some(value)
}

// The number in front of s, if the digits there are one's.
pub fn read(s: &[u8]) -> Option<Number>
    ensures { result ≡ number_in_front s.now }
{
    // One digit more shows that they are no number's, however many follow.
    let digits = digits_in_front(&s[..s.len().min(MOST_DIGITS + 1)]);
    match digits {
        [] | [b'0', _, ..] => None,
        _ => Some(Number {
            value: value(digits)?,
            size: digits.len(),
        }),
    }
}
