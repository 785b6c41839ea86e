// A Single, read and written.
ghost use Rattle.std.specs.Prelude.{◌≡◌};
ghost use Rattle.commands.specs.Commands.{Command.single};
ghost use Rattle.frames.specs.Reader.{read_frame};
ghost use Rattle.writers.specs.Writer.{wrote, written};
ghost use Rattle.frame_exports.specs.Reports.{as_single};

use commands::{Single, Wrote, refusals};

#[repr(C)]
#[derive(Clone, Copy)]
pub struct ReadSingle {
    pub answer: u8,
    pub ident: u8,
    pub used: u16,
    pub single: Single,
}

#[unsafe(no_mangle)]
pub extern "C" fn yarrowbell_read_single(s: &[u8], count: usize) -> ReadSingle
    ensures { result ≡ as_single (read_frame s.now count) }
{
    let outcome = reader::read_frame(s, count);
    let frame = frames::handed_back(outcome);
    ReadSingle {
        answer: refusals::answer(&outcome),
        ident: frame.fields.ident,
        used: u16::from(frame.used),
        single: frame.fields.single,
    }
}

#[unsafe(no_mangle)]
pub extern "C" fn yarrowbell_write_single(v: Single, out: &mut [u8]) -> Wrote
    ensures { (result ≡ wrote (single v) out.old) × (out.new ≡ written (single v) out.old) }
{
    Wrote::from(writers::write_single(v, out))
}
