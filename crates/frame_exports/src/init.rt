// An Init, read and written.
ghost use Rattle.std.specs.Prelude.{◌≡◌};
ghost use Rattle.commands.specs.Commands.{Command.init};
ghost use Rattle.frames.specs.Reader.{read_frame};
ghost use Rattle.writers.specs.Writer.{wrote, written};
ghost use Rattle.frame_exports.specs.Reports.{as_init};

use commands::{Init, Wrote, refusals};

#[repr(C)]
#[derive(Clone, Copy)]
pub struct ReadInit {
    pub answer: u8,
    pub ident: u8,
    pub used: u16,
    pub init: Init,
}

#[unsafe(no_mangle)]
pub extern "C" fn yarrowbell_read_init(s: &[u8], count: usize) -> ReadInit
    ensures { result ≡ as_init (read_frame s.now count) }
{
    let outcome = reader::read_frame(s, count);
    let frame = frames::handed_back(outcome);
    ReadInit {
        answer: refusals::answer(&outcome),
        ident: frame.fields.ident,
        used: u16::from(frame.used),
        init: frame.fields.init,
    }
}

#[unsafe(no_mangle)]
pub extern "C" fn yarrowbell_write_init(v: Init, out: &mut [u8]) -> Wrote
    ensures { (result ≡ wrote (init v) out.old) × (out.new ≡ written (init v) out.old) }
{
    Wrote::from(writers::write_init(v, out))
}
