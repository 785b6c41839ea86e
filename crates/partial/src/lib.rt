// The partial frame of a box record (document 01, last paragraph of "The machine"), and the test of it. Its length is asked where it is needed: C may
// hand in any.
#![tactic(auto)]

ghost use Rattle.std.specs.Prelude.{◌&&◌, ◌≡◌, ◌≤◌, take, drop};
ghost use Rattle.commands.specs.Idents.{number};
ghost use Rattle.model.specs.Good.{all_low, good_update_size, good_size, good_partial};
ghost use Rattle.partial.specs.Partial.{zeros, unused_zero};

use commands::idents::Ident;
use commands::sizes;
use model::Core;

// The partial frame: the first `len` of its bytes, and the length that is kept for it; both 0 where no frame is open.
// Bytes with a length beside them, as the C struct has them.
#[repr(C)]
#[derive(Clone, Copy)]
pub struct PartialFrame {
    pub bytes: [u8; 25],
    pub kept: u8,
    pub len: u16,
}

pub const NO_FRAME: PartialFrame = PartialFrame {
    bytes: [0; 25],
    kept: 0,
    len: 0,
};

// An Update's length: the running list's, or any list's when tripped; no Update is open when idle.
fn good_update_size(m: Core, size: usize) -> bool
    ensures { result ≡ good_update_size m size }
{
    if m.is_running() {
        return size == sizes::FIRST + sizes::ENTRY * timing::channels(m.run.list.stim);
    }
    m.is_tripped() & (4..=25).contains(&size) & (size % 3 == 1)
}

// A kept length, by the frame's Ident.
#[tactic(auto, unfolding(model::specs::Good::good_size))]
fn good_size(m: Core, ident: Ident, size: usize) -> bool
    ensures { result ≡ good_size m (number ident) size }
{
    match ident {
        Ident::Update => good_update_size(m, size),
        Ident::Init => size == sizes::INIT,
        Ident::Stop => size == sizes::STOP,
        Ident::Single => size == sizes::SINGLE,
    }
}

// The bytes behind the first, up to the n-th, are low.
#[tactic(auto, using(crate::proofs::Lows::none_found))]
fn all_low(bytes: [u8; 25], n: usize) -> bool
    requires { (1 ≤ n) × (n ≤ 25) }
    ensures { result ≡ all_low (drop 1 (take n bytes)) }
{
    bits::first_high(&bytes[1..n]).is_none()
}

// The bytes from the n-th on are zero.
fn rest_zero(bytes: [u8; 25], n: usize) -> bool
    requires { n ≤ 25 }
    ensures { result ≡ zeros (drop n bytes) }
{
    bytes[n..].iter().all(|b| *b == 0)
}

// The bytes in use: none, and no length is kept, or an open frame.
fn good_used(m: Core, q: PartialFrame) -> bool
    requires { q.len ≤ 25 }
    ensures { result ≡ good_partial m q.kept (take q.len q.bytes) }
{
    let len = q.len as usize;
    let kept = q.kept as usize;
    if len == 0 {
        return kept == 0;
    }
    let first = q.bytes[0];
    bits::is_high(first)
        & all_low(q.bytes, len)
        & (len < kept)
        & good_size(m, frames::ident_of(first), kept)
}

// Bytes not in use are zero, and those in use are a good partial frame.
#[tactic(auto, unfolding(crate::specs::Partial::unused_zero))]
pub fn good_partial(m: Core, q: PartialFrame) -> bool
    ensures { result ≡ unused_zero q && good_partial m q.kept (take q.len q.bytes) }
{
    let len = q.len as usize;
    len <= 25 && rest_zero(q.bytes, len) & good_used(m, q)
}
