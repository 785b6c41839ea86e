// The calls on a box (document 01, "Numbers the box answers"): it takes a byte or a tick, and its trace is read out. The ring lies in
// a named part of a lent buffer.
#![tactic(auto)]

ghost use Rattle.std.specs.Prelude.{◌≡◌, length};
ghost use Rattle.model.specs.Machine.{Call.byte, Call.tick};
ghost use Rattle.calls.specs.Calls.{call_of};
ghost use Rattle.calls.specs.Readout.{readout_of, readout_bytes};

use calls::Called;
use commands::refusals::{self, Refusal};
use record::Box;
use trace::{Part, Readout};

// One byte: 12, 13, 14, else the machine's step, its records into the ring.
pub fn byte(b: &Box, buf: &mut [u8], at: Part, n: u8) -> Called
    ensures { (result ≡ (call_of b.now buf.old at (byte n)).called) × (buf.new ≡ (call_of b.now buf.old at (byte n)).buf) }
{
    let ready = refusals::answer(&ring::ready(buf, at, b.ring));
    filing::finish(buf, at, &arrival::take_byte(b, ready, n))
}

// One tick: 12, 13, 14, 15, else the machine's step, its records into the ring.
pub fn tick(b: &Box, buf: &mut [u8], at: Part) -> Called
    ensures { (result ≡ (call_of b.now buf.old at tick).called) × (buf.new ≡ (call_of b.now buf.old at tick).buf) }
{
    let ready = refusals::answer(&ring::ready(buf, at, b.ring));
    filing::finish(buf, at, &ticks::take_tick(b, ready))
}

// The trace, its answer a number for C (`yarrowbell_readout`): 12, 13, 14, 16, else the tail copied to the front of out, oldest first.
#[tactic(auto, unfolding(calls::specs::Readout::readout_of, calls::specs::Readout::readout_bytes))]
pub fn readout(b: &Box, buf: &[u8], at: Part, out: &mut [u8]) -> Readout
    ensures { (result ≡ readout_of b.now buf.now at (length out.old)) × (out.new ≡ readout_bytes b.now buf.now at out.old) }
{
    if record::good_box(b) {
        return readout::read_out(buf, at, b.ring, out);
    }
    Readout {
        answer: u32::from(Refusal::BoxNotGood.number()),
        used: 0,
    }
}
