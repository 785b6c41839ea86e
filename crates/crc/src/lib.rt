// Cyclic redundancy checks of eight and of sixteen bits, each by a table (sources 000 and 002, section 2.2 of both).
#![tactic(auto)]

mod table16;
mod table8;

ghost use Rattle.std.specs.Prelude.{◌≡◌, ℕ};
ghost use Rattle.crc.specs.Crc.{table_of, byte_step, crc};

// What a check leaves of the bytes that it has covered, in eight bits or in sixteen: a byte more is looked up in the check's table.
pub trait Remainder: Copy {
    // Its bits but one.
    ghost top: { ℕ };

    ghost polynomial: { ℕ };

    ghost number: { Self → ℕ };

    // The remainder before any byte.
    fn start() -> Self
        ensures { number result ≡ 0 };

    // The remainder after a byte more.
    fn after(self, b: u8) -> Self
        ensures { number result ≡ byte_step top polynomial (number self) b };
}

impl Remainder for u8 {
    ghost top = { 7 };

    ghost polynomial = { 7 };

    ghost number = { λ r. r };

    fn start() -> u8 {
        0
    }

    fn after(self, b: u8) -> u8 {
        let table = remainders8();
        table[(self ^ b) as usize]
    }
}

impl Remainder for u16 {
    ghost top = { 15 };

    ghost polynomial = { 4129 };

    ghost number = { λ r. r };

    fn start() -> u16 {
        0
    }

    fn after(self, b: u8) -> u16 {
        let table = remainders16();
        (self << 8) ^ table[((self >> 8) ^ u16::from(b)) as usize]
    }
}

// The remainder after bytes more.
pub fn check<R: Remainder>(r: R, s: &[u8]) -> R
    ensures { R.number result ≡ crc R.top R.polynomial (R.number r) s.now }
{
    let mut q = r;
    for b in s {
        q = q.after(*b);
    }
    q
}

// ---- eight bits

// For each byte in turn what it leaves of the remainder 0.
pub fn remainders8() -> &'static [u8; 256]
    ensures { result.now ≡ table_of 7 7 }
{
    &table8::REMAINDERS
}

pub fn check8(r: u8, s: &[u8]) -> u8
    ensures { result ≡ crc 7 7 r s.now }
{
    check::<u8>(r, s)
}

// ---- sixteen bits

pub fn remainders16() -> &'static [u16; 256]
    ensures { result.now ≡ table_of 15 4129 }
{
    &table16::REMAINDERS
}

pub fn check16(r: u16, s: &[u8]) -> u16
    ensures { result ≡ crc 15 4129 r s.now }
{
    check::<u16>(r, s)
}
