// An Update, read and written.
ghost use Rattle.std.specs.Prelude.{◌≡◌};
ghost use Rattle.commands.specs.Commands.{Command.update};
ghost use Rattle.frames.specs.Reader.{read_frame};
ghost use Rattle.writers.specs.Writer.{wrote, written};
ghost use Rattle.frame_exports.specs.Reports.{as_update};

use commands::{Setting, Wrote, refusals};

#[repr(C)]
#[derive(Clone, Copy)]
pub struct Settings {
    pub all: [Setting; 8],
}

#[repr(C)]
#[derive(Clone, Copy)]
pub struct ReadUpdate {
    pub answer: u8,
    pub ident: u8,
    pub used: u16,
    pub settings: [Setting; 8],
}

#[unsafe(no_mangle)]
pub extern "C" fn yarrowbell_read_update(s: &[u8], count: usize) -> ReadUpdate
    ensures { result ≡ as_update (read_frame s.now count) }
{
    let outcome = reader::read_frame(s, count);
    let frame = frames::handed_back(outcome);
    let settings = frame.fields.entries;
    ReadUpdate {
        answer: refusals::answer(&outcome),
        ident: frame.fields.ident,
        used: u16::from(frame.used),
        settings,
    }
}

#[unsafe(no_mangle)]
pub extern "C" fn yarrowbell_write_update(settings: Settings, count: usize, out: &mut [u8]) -> Wrote
    ensures { (result ≡ wrote (update count settings.all) out.old) × (out.new ≡ written (update count settings.all) out.old) }
{
    Wrote::from(writers::write_update(count, settings.all, out))
}
