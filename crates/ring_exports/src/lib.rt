// What Rust sees of the ring by itself: the test that it is there whole, a push for each kind of record, the readout. Thin.
//
// The layout that both sides rely on (x86-64 Linux, C's rules, numbers in the machine's order):
//   &[u8], &mut [u8]   two arguments, a pointer and then a length of 8 bytes
//   Part               16 bytes: offset 0, size 8 (8 bytes each)
//   Ring               12 bytes: capacity 0, start 4, used 8 (4 bytes each)
//   Pushed             16 bytes: answer 0 (4 bytes), ring 4
//   Readout            8 bytes: answer 0, used 4 (4 bytes each)
// Structs go by value. Every byte of a struct is a field's.
#![tactic(auto)]

ghost use Rattle.std.specs.Prelude.{◌≡◌, length};
ghost use Rattle.trace.specs.Ring.{ready_answer, pushed, pushed_buf, read_out, read_bytes};

use commands::refusals;
use trace::{Part, Pushed, Readout, Record, Ring};

#[unsafe(no_mangle)]
pub extern "C" fn yarrowbell_ring_ready(buf: &[u8], at: Part, ring: Ring) -> u8
    ensures { result ≡ ready_answer buf.now at ring }
{
    refusals::answer(&ring::ready(buf, at, ring))
}

#[unsafe(no_mangle)]
pub extern "C" fn yarrowbell_ring_push_answer(
    buf: &mut [u8],
    at: Part,
    ring: Ring,
    clock: u32,
    ident: u8,
    answer: u8,
) -> Pushed
    ensures { (result ≡ pushed buf.old at ring (Record.Answer clock ident answer)) × (buf.new ≡ pushed_buf buf.old at ring (Record.Answer clock ident answer)) }
{
    push::push(
        buf,
        at,
        ring,
        Record::Answer {
            clock,
            ident,
            answer,
        },
    )
}

#[unsafe(no_mangle)]
pub extern "C" fn yarrowbell_ring_push_pulse(
    buf: &mut [u8],
    at: Part,
    ring: Ring,
    clock: u32,
    channel: u8,
    width: u16,
    current: u8,
) -> Pushed
    ensures { (result ≡ pushed buf.old at ring (Record.Pulse clock channel width current)) × (buf.new ≡ pushed_buf buf.old at ring (Record.Pulse clock channel width current)) }
{
    push::push(
        buf,
        at,
        ring,
        Record::Pulse {
            clock,
            channel,
            width,
            current,
        },
    )
}

#[unsafe(no_mangle)]
pub extern "C" fn yarrowbell_ring_push_trip(
    buf: &mut [u8],
    at: Part,
    ring: Ring,
    clock: u32,
    cause: u8,
) -> Pushed
    ensures { (result ≡ pushed buf.old at ring (Record.Trip clock cause)) × (buf.new ≡ pushed_buf buf.old at ring (Record.Trip clock cause)) }
{
    push::push(buf, at, ring, Record::Trip { clock, cause })
}

#[unsafe(no_mangle)]
pub extern "C" fn yarrowbell_ring_read_out(
    buf: &[u8],
    at: Part,
    ring: Ring,
    out: &mut [u8],
) -> Readout
    ensures { (result ≡ read_out buf.now at ring (length out.old)) × (out.new ≡ read_bytes buf.now at ring out.old) }
{
    readout::read_out(buf, at, ring, out)
}
