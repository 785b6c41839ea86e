// A frame of each kind: the tests of its values, and the fields that are handed back.
ghost use Rattle.std.specs.Prelude.{cond, ◌≡◌, ◌+◌, ◌*◌, ◌≤◌, length, get_or};
ghost use Rattle.bits.specs.Fields.{field};
ghost use Rattle.commands.specs.Commands.{Command.init, Command.update, Command.stop, Command.single, good_entries};
ghost use Rattle.frames.specs.Layout.{init_word, init_of, entries_in, single_in};
ghost use Rattle.frames.specs.Reader.{refused_read, reported, tested_values};

use super::layout;
use commands::idents::Ident;
use commands::refusals::Refusal;
use commands::{Setting, sizes};
use frames::{Fields, Frame, NO_FIELDS};

// 3; 4; else the frame.
fn judged(right: bool, good: bool, used: usize, fields: Fields) -> Result<Frame, Refusal>
    requires { used ≤ 25 }
    ensures { reported result ≡ cond right (cond good (record { answer = 0; used = used; fields = fields }) (refused_read 4)) (refused_read 3) }
{
    if !right {
        return Err(Refusal::WrongCheck);
    }
    if !good {
        return Err(Refusal::NotGood);
    }
    Ok(Frame {
        used: used as u8,
        fields,
    })
}

pub fn read_init(s: &[u8]) -> Result<Frame, Refusal>
    requires { 6 ≤ length s.now }
    ensures { reported result ≡ tested_values (field (init_word s.now) 37 3) (init (init_of (init_word s.now))) }
{
    let w = layout::init_word(s);
    let init = layout::init_of(w);
    let right = bits::take_field(w, 37, 3) == checks::check_init(init);
    let fields = Fields {
        ident: Ident::Init.number(),
        init,
        ..NO_FIELDS
    };
    judged(right, commands::good_init(init), sizes::INIT, fields)
}

// Whether these settings are good. The listed entries alone are looked at: those past them are zero.
fn good_listed(listed: &[Setting]) -> bool
    ensures { result ≡ good_entries listed.now (length listed.now) }
{
    listed.iter().all(|v| commands::good_setting(*v))
}

pub fn read_update(s: &[u8], count: usize) -> Result<Frame, Refusal>
    requires { (count ≤ 8) × (1 + 3 * count ≤ length s.now) }
    ensures { reported result ≡ tested_values (field (get_or s.now 0 0) 0 5) (update count (entries_in s.now count)) }
{
    let entries = layout::entries_in(s, count);
    let good = commands::good_count(count) & good_listed(&entries[..count]);
    let right = layout::check_of(s[0]) == checks::check_update(&entries[..count]);
    let fields = Fields {
        ident: Ident::Update.number(),
        entries,
        ..NO_FIELDS
    };
    judged(right, good, sizes::FIRST + sizes::ENTRY * count, fields)
}

pub fn read_stop(first: u8) -> Result<Frame, Refusal>
    ensures { reported result ≡ tested_values (field first 0 5) stop }
{
    let fields = Fields {
        ident: Ident::Stop.number(),
        ..NO_FIELDS
    };
    judged(layout::check_of(first) == 0, true, sizes::STOP, fields)
}

pub fn read_single(s: &[u8]) -> Result<Frame, Refusal>
    requires { 4 ≤ length s.now }
    ensures { reported result ≡ tested_values (field (get_or s.now 0 0) 0 5) (single (single_in s.now)) }
{
    let single = layout::single_in(s);
    let right = layout::check_of(s[0]) == checks::check_single(single);
    let fields = Fields {
        ident: Ident::Single.number(),
        single,
        ..NO_FIELDS
    };
    judged(right, commands::good_single(single), sizes::SINGLE, fields)
}
