// Byte stuffing, which the packets of RehaStim2 and RehaMove3 share: how many bytes stuffing makes, and stuffed bytes read back.
#![tactic(auto)]

ghost use Rattle.std.specs.Prelude.{◌≡◌, false, cond, length, set};
ghost use Rattle.std.specs.Int.Bits.{bit_xor};
ghost use Rattle.stuffing.specs.Stuffing.{stuffing_key, special, any_special, stuffed_byte, stuffed, opens_pair, wrong_in, pairs_good, unstuffed};
ghost use Rattle.slices.specs.Overlay.{overlay};

// Source 000, table 6.
pub const START: u8 = 240;

pub const STOP: u8 = 15;

pub const STUFFING: u8 = 129;

pub const KEY: u8 = 85;

// Is b stuffed where it stands inside a packet?
pub fn is_special(b: u8) -> bool
    ensures { result ≡ special b }
{
    (b == START) | ((b == STOP) | (b == STUFFING))
}

// Is any of these stuffed? The answers are joined as numbers, many at a time.
pub fn any_special(bytes: &[u8]) -> bool
    ensures { result ≡ any_special bytes.now }
{
    let mut flags = 0;
    for b in bytes {
        flags |= u8::from(is_special(*b));
    }
    0 < flags
}

// How many bytes b becomes.
fn size(b: u8) -> usize
    ensures { result ≡ length (stuffed_byte b) }
{
    if is_special(b) { 2 } else { 1 }
}

// How many bytes these become.
pub fn stuffed_size(bytes: &[u8]) -> usize
    ensures { result ≡ length (stuffed bytes.now) }
{
    let mut n = 0;
    for b in bytes {
        n += size(*b);
    }
    n
}

// Does b open a pair? after: the byte before did.
fn opens_pair(after: bool, b: u8) -> bool
    ensures { result ≡ opens_pair after b }
{
    !after & (b == STUFFING)
}

// Is b a byte that the writer would not make?
fn is_wrong(after: bool, b: u8) -> bool
    ensures { result ≡ wrong_in after b }
{
    if after {
        !is_special(b ^ KEY)
    } else {
        is_special(b) & (b != STUFFING)
    }
}

// Puts what these bytes stand for to the start of out, as far as it has room, and says how many they are: as an error where these bytes are not
// as the writer makes them.
pub fn unstuff(out: &mut [u8], s: &[u8]) -> Result<usize, usize>
    ensures counted { result ≡ cond (pairs_good false s.now) (Ok (length (unstuffed false s.now))) (Err (length (unstuffed false s.now))) }
    ensures put { out.new ≡ overlay (unstuffed false s.now) out.old }
{
    let mut good = true;
    let mut size = 0;
    let mut after = false;
    for b in s {
        good &= !is_wrong(after, *b);
        let opens = opens_pair(after, *b);
        if !opens {
            let p = plain(after, *b);
            put(out, size, p);
            size += 1;
        }
        after = opens;
    }
    if good & !after { Ok(size) } else { Err(size) }
}

// What b stands for where it opens no pair.
fn plain(after: bool, b: u8) -> u8
    ensures { result ≡ cond after (bit_xor b stuffing_key) b }
{
    if after { b ^ KEY } else { b }
}

// Puts b at place at, if out has it. Not by `get_mut`: the proof does not learn what out is after it.
fn put(out: &mut [u8], at: usize, b: u8)
    ensures { out.new ≡ set out.old at b }
{
    if at < out.len() {
        out[at] = b;
    }
}
