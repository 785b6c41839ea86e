// Fields of seven-bit bytes: the only shifts and masks, and the search for a high byte.
#![tactic(auto)]

ghost use Rattle.std.specs.Prelude.{◌≡◌, ◌+◌, ◌*◌, ◌/◌, ◌%◌, ◌^◌, ◌<◌, position};
ghost use Rattle.bits.specs.Fields.{field, below};
ghost use Rattle.bits.specs.High.{high};

// The lowest `width` bits of w.
fn low_bits(w: u64, width: u64) -> u64
    requires { width < 64 }
    ensures { result ≡ w % 2 ^ width }
{
    w & ((1 << width) - 1)
}

// The bits of w from bit `low` up.
fn bits_from(w: u64, low: u64) -> u64
    requires { low < 64 }
    ensures { result ≡ w / 2 ^ low }
{
    w >> low
}

// w moved up by `width` bits, and v in the room below it.
fn joined(w: u64, width: u64, v: u64) -> u64
    requires { (width < 64) × (v < 2 ^ width) }
    ensures { result ≡ w * 2 ^ width % 2 ^ 64 + v }
{
    (w << width) | v
}

// The `width` bits of w from bit `low` up.
pub fn take_field(w: u64, low: u64, width: u64) -> u64
    ensures { result ≡ field w low width }
{
    if 64 <= low {
        return 0;
    }
    if 64 <= width {
        return bits_from(w, low);
    }
    low_bits(bits_from(w, low), width)
}

// w with the `width` lowest bits of v put below it.
pub fn put_field(w: u64, width: u64, v: u64) -> u64
    ensures { result ≡ below w width v }
{
    if 64 <= width {
        return v;
    }
    joined(w, width, low_bits(v, width))
}

// Whether bit 7 of a byte is set.
pub fn is_high(b: u8) -> bool
    ensures { result ≡ high b }
{
    128 <= b
}

// The place of the first high byte of s, if one is high.
pub fn first_high(s: &[u8]) -> Option<usize>
    ensures { result ≡ position high s.now }
{
    s.iter().position(|b| is_high(*b))
}
