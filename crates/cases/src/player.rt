// A script's lines are played on a box, and what each gives is written.
use crate::step::Step;
use crate::told::{Copied, Reached, Record, Told, pulses};
use crate::within::Within;
use model::Profile;
use record::Box;
use said::Said;
use std::io;
use trace::Part;

// The frame of a Stop.
const STOP: u8 = 0xC0;

#[derive(Drop)]
pub struct Player {
    unit: Box,

    // The box's ring lies in a part of a lent buffer: the largest ring, and 16 bytes more.
    lent: [u8; 4112],
    part: Part,
}

impl Player {
    // No box yet: the record of a refused making.
    pub fn new() -> Player {
        let nothing = Profile {
            currents: [0; 8],
            widths: [0; 8],
            charge: 0,
            shortest: 0,
            watchdog: 0,
        };
        Player {
            unit: making::make(nothing, 0).made,
            lent: [0; 4112],
            part: Part { offset: 0, size: 0 },
        }
    }

    // A line, and below it what its step gave.
    pub fn play(&mut self, rt: &impl Print, line: &[u8]) -> io::Result<()> {
        rt.write_all(line)?;
        println!(rt; "")?;
        match Step::try_from(line) {
            Ok(step) => self.step(rt, step),
            Err(unreadable) => println!(rt; "  {unreadable}"),
        }
    }

    fn step(&mut self, rt: &impl Print, step: Step) -> io::Result<()> {
        match step {
            Step::Nothing => {}
            Step::Make { capacity, profile } => self.make(rt, capacity, profile)?,
            Step::Send(bytes) => self.send(rt, bytes.as_slice())?,
            Step::Stops(count) => self.stops(count),
            Step::Tick(count) => self.ticks(rt, count)?,
            Step::Read(room) => {
                let mut out = [0; 4096];
                self.read(rt, &mut out[..room.value])?;
            }
            Step::Frame { channels, bytes } => read_frame(rt, channels, bytes.as_slice())?,
            Step::Show => println!(rt; "  {}", Record(&self.unit))?,
            Step::Part(part) => self.part = part,
            Step::Put { place, byte } => self.lent[place.value] = byte,
            Step::Clock(clock) => self.unit.clock = clock,
            Step::Hold(hold) => self.unit.core.holda = hold,
            Step::Limits {
                channel,
                current,
                width,
            } => self.limit(channel, current, width),
        }
        Ok(())
    }

    fn make(&mut self, rt: &impl Print, capacity: u32, profile: Option<Profile>) -> io::Result<()> {
        let made = making::make(profile.unwrap_or(self.unit.profile), capacity);
        self.unit = made.made;
        self.part = Part {
            offset: 0,
            size: capacity as usize,
        };
        println!(rt; "  answer {}", made.answer)
    }

    fn byte(&mut self, n: u8) -> Said {
        let called = guard::byte(&self.unit, &mut self.lent, self.part, n);
        self.unit = called.next;
        called.said
    }

    // What each byte is told, in one line.
    fn send(&mut self, rt: &impl Print, bytes: &[u8]) -> io::Result<()> {
        print!(rt; " ")?;
        for n in bytes {
            print!(rt; " {}", Told(self.byte(*n)))?;
        }
        println!(rt; "")
    }

    // So many Stops. The trace tells what came of them.
    fn stops(&mut self, count: u32) {
        for _ in 0..count {
            self.byte(STOP);
        }
    }

    fn tick(&mut self) -> Said {
        let called = guard::tick(&self.unit, &mut self.lent, self.part);
        self.unit = called.next;
        called.said
    }

    // The answers other than 0 and the pulses, then the clock and the state.
    fn ticks(&mut self, rt: &impl Print, count: u32) -> io::Result<()> {
        for _ in 0..count {
            let said = self.tick();
            if said.answer != 0 {
                println!(rt; "  answer {}", said.answer)?;
            }
            for pulse in pulses(said).into_iter().flatten() {
                println!(rt; "  {pulse}")?;
            }
        }
        println!(rt; "  {}", Reached(&self.unit))
    }

    fn read(&self, rt: &impl Print, out: &mut [u8]) -> io::Result<()> {
        let read = guard::readout(&self.unit, &self.lent, self.part, out);
        let copied = Copied {
            answer: read.answer,
            bytes: &out[..read.used as usize],
        };
        println!(rt; "  {copied}")
    }

    fn limit(&mut self, channel: Within<1, 8>, current: u8, width: u16) {
        let i = channel.value - 1;
        self.unit.profile.currents[i] = current;
        self.unit.profile.widths[i] = width;
    }
}

// What the reader of one frame answers.
fn read_frame(rt: &impl Print, channels: usize, bytes: &[u8]) -> io::Result<()> {
    match reader::read_frame(bytes, channels) {
        Ok(frame) => println!(rt; "  answer 0, used {}", frame.used),
        Err(refusal) => println!(rt; "  answer {}, used 0", refusal.number()),
    }
}
