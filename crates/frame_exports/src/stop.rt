// A Stop, read and written.
ghost use Rattle.std.specs.Prelude.{◌≡◌};
ghost use Rattle.commands.specs.Commands.{Command.stop};
ghost use Rattle.frames.specs.Reader.{read_frame};
ghost use Rattle.writers.specs.Writer.{wrote, written};
ghost use Rattle.frame_exports.specs.Reports.{as_stop};

use commands::{Wrote, refusals};

#[repr(C)]
#[derive(Clone, Copy)]
pub struct ReadStop {
    pub answer: u8,
    pub ident: u8,
    pub used: u16,
}

#[unsafe(no_mangle)]
pub extern "C" fn yarrowbell_read_stop(s: &[u8], count: usize) -> ReadStop
    ensures { result ≡ as_stop (read_frame s.now count) }
{
    let outcome = reader::read_frame(s, count);
    let frame = frames::handed_back(outcome);
    ReadStop {
        answer: refusals::answer(&outcome),
        ident: frame.fields.ident,
        used: u16::from(frame.used),
    }
}

#[unsafe(no_mangle)]
pub extern "C" fn yarrowbell_write_stop(out: &mut [u8]) -> Wrote
    ensures { (result ≡ wrote stop out.old) × (out.new ≡ written stop out.old) }
{
    Wrote::from(writers::write_stop(out))
}
