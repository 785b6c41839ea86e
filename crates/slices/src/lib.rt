// Bytes of a slice: the one at any place, those in front, and bytes put to a slice's start or stored from a place on.
#![tactic(auto)]

ghost use Rattle.std.specs.Prelude.{◌≡◌, get_or};
ghost use Rattle.slices.specs.Overlay.{overlay};
ghost use Rattle.slices.specs.Stored.{placed, stored_in};
ghost use Rattle.slices.specs.Starts.{starts};

// The byte at a place, 0 behind the last: what a packet has too little counts as 0 until its size is tested.
pub fn byte_at(p: &[u8], i: usize) -> u8
    ensures { result ≡ get_or p.now i 0 }
{
    p.get(i).copied().unwrap_or(0)
}

// Puts bytes to the start of out, as far as it has room. By index: the library's copy would have a `memmove` linked from outside.
pub fn copy(out: &mut [u8], bytes: &[u8])
    ensures { out.new ≡ overlay bytes.now out.old }
{
    let n = bytes.len().min(out.len());
    for i in 0..n {
        out[i] = bytes[i];
    }
}

// Whether s begins with these bytes.
#[tactic(auto, using(crate::proofs::Compared::starts_as))]
pub fn starts(s: &[u8], bytes: &[u8]) -> bool
    ensures { result ≡ starts bytes.now s.now }
{
    s.starts_with(bytes)
}

// Stores the bytes in out, from place `at` on, if there is room for all of them: the place behind them.
#[tactic(auto, using(crate::proofs::Stored::placed_yes, crate::proofs::Stored::placed_no, crate::proofs::Stored::store_no, crate::proofs::Stored::store_parts))]
pub fn store(out: &mut [u8], at: usize, bytes: &[u8]) -> Option<usize>
    ensures behind { result ≡ placed out.old at bytes.now }
    ensures bytes { out.new ≡ stored_in out.old at bytes.now }
{
    let end = at.checked_add(bytes.len())?;
    if out.len() < end {
        return None;
    }
    out[at..end].copy_from_slice(bytes);
    Some(end)
}
