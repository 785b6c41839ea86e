// What Rust sees of a box by value: it is made, given a byte or a tick, its trace read out. Thin.
//
// The layout that both sides rely on (x86-64 Linux, C's rules, numbers in the machine's order), in `lent` too:
//   &[u8], &mut [u8]   two arguments, a pointer and then a length of 8 bytes
//   &mut Box           a pointer to a Box (crate lent)
//   Init, Setting      6 and 4 bytes, as in frame_exports
//   Part, Ring         16 and 12 bytes, as in ring_exports
//   Readout            8 bytes, as in ring_exports
//   Profile            36 bytes: currents 0 (eight), widths 8 (eight of 2 bytes), charge 24, shortest 28, watchdog 32 (4 bytes each)
//   Run                84 bytes: list 0 (Init), position 6 (2 bytes), cycle 8, watch 12, waits 16 (4 bytes each), settings 20 (eight),
//                      waiting 52 (eight settings)
//   Core               88 bytes: holda 0, holdb 1, state 2 (2 bytes), run 4
//   PartialFrame       28 bytes: bytes 0 (25 of them), kept 25, len 26 (2 bytes)
//   Box                168 bytes: profile 0, clock 36 (4 bytes), core 40, partial 128, ring 156
//   Released           8 bytes: clock 0 (4 bytes), width 4 (2 bytes), channel 6, current 7
//   Said               20 bytes: answer 0, reply 2 (2 bytes each), a 4, b 12 (Released each)
//   Made               172 bytes: answer 0 (4 bytes), made 4 (Box)
//   Called             188 bytes: said 0, next 20 (Box)
// Structs go by value, but for a box lent by reference. Every byte of a struct is a field's: some numbers are wider than their range
// asks for, so that none lies between two fields or behind the last.
#![tactic(auto)]

ghost use Rattle.std.specs.Prelude.{◌≡◌, length};
ghost use Rattle.model.specs.Machine.{Call.byte, Call.tick};
ghost use Rattle.calls.specs.Making.{make_of};
ghost use Rattle.calls.specs.Calls.{call_of};
ghost use Rattle.calls.specs.Readout.{readout_of, readout_bytes};

use calls::{Called, Made};
use model::Profile;
use record::Box;
use trace::{Part, Readout};

#[unsafe(no_mangle)]
pub extern "C" fn yarrowbell_make(profile: Profile, capacity: u32) -> Made
    ensures { result ≡ make_of profile capacity }
{
    making::make(profile, capacity)
}

#[unsafe(no_mangle)]
pub extern "C" fn yarrowbell_byte(b: Box, buf: &mut [u8], at: Part, n: u8) -> Called
    ensures { (result ≡ (call_of b buf.old at (byte n)).called) × (buf.new ≡ (call_of b buf.old at (byte n)).buf) }
{
    guard::byte(&b, buf, at, n)
}

#[unsafe(no_mangle)]
pub extern "C" fn yarrowbell_tick(b: Box, buf: &mut [u8], at: Part) -> Called
    ensures { (result ≡ (call_of b buf.old at tick).called) × (buf.new ≡ (call_of b buf.old at tick).buf) }
{
    guard::tick(&b, buf, at)
}

#[unsafe(no_mangle)]
pub extern "C" fn yarrowbell_readout(b: Box, buf: &[u8], at: Part, out: &mut [u8]) -> Readout
    ensures { (result ≡ readout_of b buf.now at (length out.old)) × (out.new ≡ readout_bytes b buf.now at out.old) }
{
    guard::readout(&b, buf, at, out)
}
