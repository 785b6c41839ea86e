// Document 01, "Bytes". That a box is good, and how long its partial frame is, is asked where it is needed: C may hand in any.
#![tactic(auto)]

ghost use Rattle.std.specs.Prelude.{true, ◌≡◌, [], ◌∷◌, ◌≤◌, ◌<◌, take};
ghost use Rattle.model.specs.Arrival.{taken, opened_update, opened, followed, Arrival.alone, Arrival.whole};
ghost use Rattle.model.specs.Machine.{step, Call.byte};
ghost use Rattle.partial.specs.Partial.{frame_of};
ghost use Rattle.record.specs.Box.{state_of, good_box};
ghost use Rattle.outcome.specs.Step.{carried, step_of};
ghost use Rattle.arrival.specs.Arriving.{open_in, grown, unfinished, settled};
ghost use Rattle.effects.specs.Deciding.{Whole};

use commands::idents::Ident;
use commands::refusals::{DONE, Refusal};
use commands::sizes;
use decided::Decided;
use outcome::Stepped;
use partial::PartialFrame;
use record::Box;
use said::Records;

// The first byte of a frame of this length.
#[tactic(auto, unfolding(partial::specs::Partial::frame_of))]
fn first(n: u8, size: usize) -> PartialFrame
    requires { size ≤ 25 }
    ensures { result ≡ frame_of (record { bytes = n ∷ []; size = size }) }
{
    let mut bytes = partial::NO_FRAME.bytes;
    bytes[0] = n;
    PartialFrame {
        bytes,
        kept: size as u8,
        len: 1,
    }
}

// The frame that is open, if there is one.
fn open_in(b: &Box) -> Option<PartialFrame>
    ensures { result ≡ open_in b.now.partial }
{
    if b.partial.len == 0 {
        return None;
    }
    Some(b.partial)
}

// One byte more.
fn grow(mut q: PartialFrame, n: u8) -> PartialFrame
    requires { q.len < 25 }
    ensures { result ≡ grown q n }
{
    q.bytes[q.len as usize] = n;
    q.len += 1;
    q
}

// 1: the byte is kept.
fn keep(b: &Box, partial: PartialFrame) -> Stepped
    ensures { result ≡ unfinished b.now partial }
{
    Stepped {
        said: said::say(Refusal::Unfinished.number(), 0),
        records: Records::Empty,
        next: Box { partial, ..*b },
    }
}

// A decided command closes the frame.
#[tactic(auto, unfolding(partial::specs::Partial::frame_of))]
fn settle(b: &Box, d: Decided) -> Stepped
    ensures { result ≡ settled b.now d }
{
    Stepped {
        said: d.said,
        records: d.records,
        next: Box {
            core: d.core,
            partial: partial::NO_FRAME,
            ..*b
        },
    }
}

// An Update's first byte while no list runs: 6, or 10 when tripped.
fn alone(b: &Box) -> Stepped
    ensures { result ≡ carried b.now (taken b.now.profile (state_of b.now) alone) }
{
    let refusal = if model::TRIPPED <= b.core.state {
        Refusal::WhileTripped
    } else {
        Refusal::NoList
    };
    settle(
        b,
        decided::tell(b.clock, Ident::Update.number(), refusal.number(), b.core),
    )
}

// A whole frame is read, judged and carried out.
fn finish(b: &Box, q: &PartialFrame) -> Stepped
    requires { (q.now.len ≤ 25) × Whole (take q.now.len q.now.bytes) }
    ensures { result ≡ carried b.now (taken b.now.profile (state_of b.now) (whole (take q.now.len q.now.bytes))) }
{
    settle(b, effects::decide(b, &q.bytes[..q.len as usize]))
}

// An Update's first byte fixes its length.
fn open_update(b: &Box, n: u8) -> Stepped
    ensures { result ≡ carried b.now (taken b.now.profile (state_of b.now) (opened_update b.now.core n)) }
{
    if b.core.state == model::RUNNING {
        let size = sizes::FIRST + sizes::ENTRY * timing::channels(b.core.run.list.stim);
        return keep(b, first(n, size));
    }
    alone(b)
}

// A high byte opens a frame, or is a Stop.
fn open_frame(b: &Box, n: u8) -> Stepped
    requires { 128 ≤ n }
    ensures { result ≡ carried b.now (taken b.now.profile (state_of b.now) (opened b.now.core n)) }
{
    match frames::ident_of(n) {
        Ident::Update => open_update(b, n),
        Ident::Init => keep(b, first(n, sizes::INIT)),
        Ident::Stop => finish(b, &first(n, sizes::STOP)),
        Ident::Single => keep(b, first(n, sizes::SINGLE)),
    }
}

// A low byte goes on with the open frame, if there is one.
fn follow(b: &Box, n: u8) -> Stepped
    requires { (good_box b.now ≡ true) × (n < 128) }
    ensures { result ≡ carried b.now (taken b.now.profile (state_of b.now) (followed (state_of b.now).partial n)) }
{
    match open_in(b) {
        None => outcome::refuse(Refusal::LowByte.number(), b),
        Some(frame) => {
            let longer = grow(frame, n);
            if longer.len == u16::from(longer.kept) {
                return finish(b, &longer);
            }
            keep(b, longer)
        }
    }
}

fn arrive(b: &Box, n: u8) -> Stepped
    requires { good_box b.now ≡ true }
    ensures { result ≡ carried b.now (step b.now.profile (state_of b.now) (byte n)) }
{
    if bits::is_high(n) {
        return open_frame(b, n);
    }
    follow(b, n)
}

// One byte, where the ring's own tests gave `ring`, which may be any number: 12, what `ring` says, else the byte.
pub fn take_byte(b: &Box, ring: u8, n: u8) -> Stepped
    ensures { result ≡ step_of b.now ring (byte n) }
{
    match outcome::refusal(b, ring) {
        DONE => arrive(b, n),
        answer => outcome::refuse(answer, b),
    }
}
