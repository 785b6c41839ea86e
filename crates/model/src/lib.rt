// Document 01's machine, "Profile" and "The machine": its numbers. Its rules stand in specs/ as definitions, and what follows from
// them in proofs/. The only functions here are those of a module and of the state. The fields' order and width leave no byte between
// them, as the structs cross the boundary.
#![tactic(auto)]

ghost use Rattle.std.specs.Prelude.{◌≡◌};
ghost use Rattle.model.specs.Modules.{module_of, first, offset};
ghost use Rattle.model.specs.State.{is_running, is_tripped};

use commands::{Init, Setting};

// The largest current and width of each channel, the largest charge, the shortest t1 and the watchdog.
// Two arrays side by side, as the C struct has them.
#[repr(C)]
#[derive(Clone, Copy)]
pub struct Profile {
    pub currents: [u8; 8],
    pub widths: [u16; 8],
    pub charge: u32,
    pub shortest: u32,
    pub watchdog: u32,
}

// What a running list has, all zero while the box is not running. An update waits where `waits` is 1; `watch` is the watchdog count.
// A flag and settings beside it, as the C struct has them.
#[repr(C)]
#[derive(Clone, Copy, PartialEq, Eq)]
pub struct Run {
    pub list: Init,
    pub position: u16,
    pub cycle: u32,
    pub watch: u32,
    pub waits: u32,
    pub settings: [Setting; 8],
    pub waiting: [Setting; 8],
}

// Settings for eight channels, all zero.
pub const SILENCE: [Setting; 8] = [commands::NO_SETTING; 8];

// What a box has that is not running.
pub const STILL: Run = Run {
    list: commands::NO_INIT,
    position: 0,
    cycle: 0,
    watch: 0,
    waits: 0,
    settings: SILENCE,
    waiting: SILENCE,
};

// The states. A number above counts as tripped: a core that comes over the C boundary may have any, and its layout stays (`Core`).
pub const IDLE: u16 = 0;

pub const RUNNING: u16 = 1;

pub const TRIPPED: u16 = 2;

// How many channels a module has.
pub const CHANNELS: u8 = 4;

// A has channels 1 to 4, B has 5 to 8.
#[derive(Clone, Copy, PartialEq, Eq)]
pub enum Module {
    A,
    B,
}

impl Module {
    // The module of a channel, counted from 0.
    pub fn of(channel: u8) -> Module
        ensures { result ≡ module_of channel }
    {
        if channel < CHANNELS {
            Module::A
        } else {
            Module::B
        }
    }

    // Its first channel, counted from 0.
    pub fn first(self) -> usize
        ensures { result ≡ first self }
    {
        match self {
            Module::A => 0,
            Module::B => CHANNELS as usize,
        }
    }

    // How many tenths of a millisecond its slots begin later than A's.
    pub fn offset(self) -> u32
        ensures { result ≡ offset self }
    {
        match self {
            Module::A => 0,
            Module::B => 6,
        }
    }
}

// The hold that a command puts on a module.
pub const HOLD: u8 = 15;

// The machine without its clock and its partial frame: the holds of modules A and B, and the state.
#[repr(C)]
#[derive(Clone, Copy)]
pub struct Core {
    pub holda: u8,
    pub holdb: u8,
    pub state: u16,
    pub run: Run,
}

impl Core {
    pub fn is_running(&self) -> bool
        ensures { result ≡ is_running self.now }
    {
        self.state == RUNNING
    }

    pub fn is_tripped(&self) -> bool
        ensures { result ≡ is_tripped self.now }
    {
        TRIPPED <= self.state
    }
}
