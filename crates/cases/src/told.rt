// What is told of a step, behind the two spaces.
use record::Box;
use said::{Released, Said};
use std::fmt;

// The most bytes that are written of a readout.
const SHOWN: usize = 40;

// A pulse that was released.
#[derive(Clone, Copy)]
pub struct Pulse(Released);

impl fmt::Display for Pulse {
    fn fmt<W: fmt::Write>(&self, f: &mut fmt::Formatter<W>) -> fmt::Result {
        let p = self.0;
        write!(
            f,
            "clock {}: channel {}, {} us, {} mA",
            p.clock, p.channel, p.width, p.current
        )
    }
}

// The pulses that a call released, one of module A and one of module B. What is said crosses to C: there no pulse is channel 0.
pub fn pulses(said: Said) -> [Option<Pulse>; 2] {
    [said.a, said.b].map(|p| (p.channel != 0).then_some(Pulse(p)))
}

// What a byte was told: its answer, its reply in brackets where there is one, its pulses.
#[derive(Clone, Copy)]
pub struct Told(pub Said);

impl fmt::Display for Told {
    fn fmt<W: fmt::Write>(&self, f: &mut fmt::Formatter<W>) -> fmt::Result {
        write!(f, "{}", self.0.answer)?;
        if self.0.reply != 0 {
            write!(f, " ({:02X})", self.0.reply)?;
        }
        for pulse in pulses(self.0).into_iter().flatten() {
            write!(f, " {pulse}")?;
        }
        Ok(())
    }
}

// What a readout answers, and the bytes that it copied.
#[derive(Clone, Copy)]
pub struct Copied<'a> {
    pub answer: u32,
    pub bytes: &'a [u8],
}

impl fmt::Display for Copied<'_> {
    fn fmt<W: fmt::Write>(&self, f: &mut fmt::Formatter<W>) -> fmt::Result {
        write!(f, "answer {}, {} bytes:", self.answer, self.bytes.len())?;
        for byte in self.bytes.iter().take(SHOWN) {
            write!(f, " {byte:02X}")?;
        }
        if SHOWN < self.bytes.len() {
            write!(f, " ..")?;
        }
        Ok(())
    }
}

// The clock and the state.
#[derive(Clone, Copy)]
pub struct Reached<'a>(pub &'a Box);

impl fmt::Display for Reached<'_> {
    fn fmt<W: fmt::Write>(&self, f: &mut fmt::Formatter<W>) -> fmt::Result {
        // The record crosses to C, so its state is a number.
        let state = match self.0.core.state {
            model::IDLE => "idle",
            model::RUNNING => "running",
            _ => "tripped",
        };
        write!(f, "clock {}, {state}", self.0.clock)
    }
}

// The clock, the state and the other numbers of a record.
#[derive(Clone, Copy)]
pub struct Record<'a>(pub &'a Box);

impl fmt::Display for Record<'_> {
    fn fmt<W: fmt::Write>(&self, f: &mut fmt::Formatter<W>) -> fmt::Result {
        let core = self.0.core;
        let run = core.run;
        let partial = self.0.partial;
        write!(
            f,
            "{}, holds {} {}",
            Reached(self.0),
            core.holda,
            core.holdb
        )?;
        write!(f, ", position {}, cycle {}", run.position, run.cycle)?;
        write!(f, ", count {}, waits {}", run.watch, run.waits)?;
        write!(f, ", frame {} of {}", partial.len, partial.kept)
    }
}
