// What the calls on a box give back: a box is made, takes a byte or a tick, and its trace is read out. Their rules stand in specs/ as
// definitions. No function stands here.
#![tactic(auto)]

use record::Box;
use said::Said;

// What the making of a box answers, as C reads it, and the box, all zero where it is refused.
#[repr(C)]
#[derive(Clone, Copy)]
pub struct Made {
    pub answer: u32,
    pub made: Box,
}

// What a call says, and the box that it leaves, as C reads them.
#[repr(C)]
#[derive(Clone, Copy)]
pub struct Called {
    pub said: Said,
    pub next: Box,
}
