// The box lent by reference and changed where it lies: each call is the call by value, its box stored. Exported, in the layout that
// the head of `box_exports` tells; a crate and an archive of its own.
#![tactic(auto)]

ghost use Rattle.std.specs.Prelude.{◌≡◌};
ghost use Rattle.model.specs.Machine.{Call.byte, Call.tick};
ghost use Rattle.calls.specs.Calls.{call_of};

use record::Box;
use said::Said;
use trace::Part;

#[unsafe(no_mangle)]
pub extern "C" fn yarrowbell_byte_in_place(b: &mut Box, buf: &mut [u8], at: Part, n: u8) -> Said
    ensures { (result ≡ (call_of b.old buf.old at (byte n)).called.said)
        × (b.new ≡ (call_of b.old buf.old at (byte n)).called.next)
        × (buf.new ≡ (call_of b.old buf.old at (byte n)).buf) }
{
    let t = guard::byte(b, buf, at, n);
    *b = t.next;
    t.said
}

#[unsafe(no_mangle)]
pub extern "C" fn yarrowbell_tick_in_place(b: &mut Box, buf: &mut [u8], at: Part) -> Said
    ensures { (result ≡ (call_of b.old buf.old at tick).called.said)
        × (b.new ≡ (call_of b.old buf.old at tick).called.next)
        × (buf.new ≡ (call_of b.old buf.old at tick).buf) }
{
    let t = guard::tick(b, buf, at);
    *b = t.next;
    t.said
}
