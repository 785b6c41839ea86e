// The reader of one frame (document 01, "The four frames"): its tests in their order, and what it finds.
#![tactic(auto)]

mod layout;
mod reading;

ghost use Rattle.std.specs.Prelude.{◌≡◌};
ghost use Rattle.commands.specs.Answers.{first_of};
ghost use Rattle.frames.specs.Layout.{command_in, check_in};
ghost use Rattle.frames.specs.Reader.{shape_tests, reported, tested_values, read_frame};

use commands::idents::Ident;
use commands::refusals::Refusal;
use frames::Frame;

// The frame at the front of s, whose list has `count` channels.
#[tactic(auto, using(frames::proofs::Judging::refused_as, frames::proofs::Judging::read_judged))]
pub fn read_frame(s: &[u8], count: usize) -> Result<Frame, Refusal>
    ensures { reported result ≡ read_frame s.now count }
{
    frames::shape(s, count)?;
    read_kind(s, count)
}

// A frame of the right shape, by its kind.
fn read_kind(s: &[u8], count: usize) -> Result<Frame, Refusal>
    requires { first_of (shape_tests s.now count) ≡ 0 }
    ensures { reported result ≡ tested_values (check_in s.now) (command_in s.now count) }
{
    let first = s[0];
    match frames::ident_of(first) {
        Ident::Init => reading::read_init(s),
        Ident::Update => reading::read_update(s, count),
        Ident::Stop => reading::read_stop(first),
        Ident::Single => reading::read_single(s),
    }
}
