// A good command's bytes, stored at the front of an output that has room for them.
ghost use Rattle.std.specs.Prelude.{true, ◌≡◌, ◌+◌, ◌-◌, ◌*◌, ◌^◌, ◌≤◌, ◌<◌, length, get_or, EachIndex};
ghost use Rattle.std.proofs.lemmas.List.Edits.{sets};
ghost use Rattle.commands.specs.Commands.{Command.init, Command.update, Command.single, no_setting, check_of, good_setting, good};
ghost use Rattle.commands.specs.Idents.{number};
ghost use Rattle.frames.specs.Bytes.{head, init_number, entry_bytes, settings_bytes, frame};

use commands::idents::Ident;
use commands::{Init, Setting, Single, sizes};

// The first byte of all but Init.
#[tactic(auto, unfolding(bits::specs::Fields::below))]
pub fn head_of(ident: Ident, check: u64) -> u8
    requires { check < 32 }
    ensures { result ≡ head (number ident) check }
{
    bits::put_field(bits::put_field(1, 2, ident.number() as u64), 5, check) as u8
}

// Bit 7 of the first byte, and the 42 bits of an Init frame.
fn init_number(check: u64, v: Init) -> u64
    requires { (check < 8) × (good (init v) ≡ true) }
    ensures { result ≡ init_number check v }
{
    let head = bits::put_field(bits::put_field(4, 3, check), 3, v.factor as u64);
    let lists = bits::put_field(bits::put_field(head, 8, v.stim as u64), 8, v.lf as u64);
    bits::put_field(bits::put_field(lists, 7, v.group as u64), 11, v.main as u64)
}

pub fn put_init(v: Init, out: &mut [u8])
    requires { (good (init v) ≡ true) × (6 ≤ length out.old) }
    ensures { out.new ≡ sets out.old 0 (frame (init v)) }
{
    // Byte by byte: a loop over the shifts would be no plainer, since the first byte alone has eight bits.
    let w = init_number(checks::check_init(v), v);
    out[0] = bits::take_field(w, 35, 8) as u8;
    out[1] = bits::take_field(w, 28, 7) as u8;
    out[2] = bits::take_field(w, 21, 7) as u8;
    out[3] = bits::take_field(w, 14, 7) as u8;
    out[4] = bits::take_field(w, 7, 7) as u8;
    out[5] = bits::take_field(w, 0, 7) as u8;
}

// The three bytes that Update and Single share, stored from `at` on.
fn put_entry(low: u64, lead: u8, width: u16, current: u8, out: &mut [u8], at: usize)
    requires { (low ≤ 7) × (2 ≤ low) × (lead < 2 ^ (7 - low)) × (at + 3 ≤ length out.old) }
    ensures { out.new ≡ sets out.old at (entry_bytes low lead width current) }
{
    let wide = width as u64;
    out[at] = bits::put_field(lead as u64, low, bits::take_field(wide, 7, 2)) as u8;
    out[at + 1] = bits::take_field(wide, 0, 7) as u8;
    out[at + 2] = current;
}

// The entries of good settings, stored from the second byte on, and their Check: a loop for each takes longer.
fn put_settings(listed: &[Setting], out: &mut [u8]) -> u64
    requires { EachIndex listed.now (λ i. good_setting (get_or listed.now i no_setting) ≡ true) × (1 + 3 * length listed.now ≤ length out.old) }
    ensures check { result ≡ check_of (update (length listed.now) listed.now) }
    ensures bytes { out.new ≡ sets out.old 1 (settings_bytes listed.now) }
{
    let mut remainder = 0;
    for (i, v) in listed.iter().enumerate() {
        let at = sizes::FIRST + sizes::ENTRY * i;
        put_entry(frames::MODE_BIT, v.mode, v.width, v.current, out, at);
        remainder = checks::plus_entry(remainder, v.mode, v.width, v.current);
    }
    u64::from(remainder)
}

pub fn put_update(count: usize, entries: [Setting; 8], out: &mut [u8])
    requires { (good (update count entries) ≡ true) × (1 + 3 * count ≤ length out.old) }
    ensures { out.new ≡ sets out.old 0 (frame (update count entries)) }
{
    let check = put_settings(&entries[..count], out);
    out[0] = head_of(Ident::Update, check);
}

pub fn put_single(v: Single, out: &mut [u8])
    requires { (good (single v) ≡ true) × (4 ≤ length out.old) }
    ensures { out.new ≡ sets out.old 0 (frame (single v)) }
{
    out[0] = head_of(Ident::Single, checks::check_single(v));
    put_entry(
        frames::CHANNEL_BIT,
        v.channel,
        v.width,
        v.current,
        out,
        sizes::FIRST,
    );
}
