// The writers (document 01, "The four frames"): one for each kind of command. Each gives the bytes written.
#![tactic(auto)]

mod storing;

ghost use Rattle.std.specs.Prelude.{cond, Ok, Err, ◌≡◌, ◌≤◌, ltb, length};
ghost use Rattle.commands.specs.Commands.{Command.init, Command.update, Command.stop, Command.single};
ghost use Rattle.commands.specs.Refusals.{report};
ghost use Rattle.writers.specs.Writer.{wrote, written};

use commands::idents::Ident;
use commands::refusals::Refusal;
use commands::{Init, Setting, Single, sizes};

// So many bytes, where the output has room for them.
fn room(size: usize, out: &[u8]) -> Result<u8, Refusal>
    requires { size ≤ 25 }
    ensures { result ≡ cond (ltb (length out.now) size) (Err Refusal.OutputTooShort) (Ok size) }
{
    if out.len() < size {
        Err(Refusal::OutputTooShort)
    } else {
        Ok(size as u8)
    }
}

#[tactic(auto, using(crate::proofs::Outcomes::outcomes))]
pub fn write_init(v: Init, out: &mut [u8]) -> Result<u8, Refusal>
    ensures { (report result ≡ wrote (init v) out.old) × (out.new ≡ written (init v) out.old) }
{
    if !commands::good_init(v) {
        return Err(Refusal::NotGood);
    }
    let used = room(sizes::INIT, out)?;
    storing::put_init(v, out);
    Ok(used)
}

// An Update of `count` listed channels: their entries, lowest channel first, and then zeros.
#[tactic(auto, using(crate::proofs::Outcomes::outcomes, crate::proofs::Rows::length_update))]
pub fn write_update(count: usize, entries: [Setting; 8], out: &mut [u8]) -> Result<u8, Refusal>
    ensures { (report result ≡ wrote (update count entries) out.old) × (out.new ≡ written (update count entries) out.old) }
{
    if !commands::good_update(count, entries) {
        return Err(Refusal::NotGood);
    }
    let used = room(sizes::FIRST + sizes::ENTRY * count, out)?;
    storing::put_update(count, entries, out);
    Ok(used)
}

#[tactic(auto, using(crate::proofs::Outcomes::outcomes))]
pub fn write_stop(out: &mut [u8]) -> Result<u8, Refusal>
    ensures { (report result ≡ wrote stop out.old) × (out.new ≡ written stop out.old) }
{
    let used = room(sizes::STOP, out)?;
    out[0] = storing::head_of(Ident::Stop, 0);
    Ok(used)
}

#[tactic(auto, using(crate::proofs::Outcomes::outcomes))]
pub fn write_single(v: Single, out: &mut [u8]) -> Result<u8, Refusal>
    ensures { (report result ≡ wrote (single v) out.old) × (out.new ≡ written (single v) out.old) }
{
    if !commands::good_single(v) {
        return Err(Refusal::NotGood);
    }
    let used = room(sizes::SINGLE, out)?;
    storing::put_single(v, out);
    Ok(used)
}
