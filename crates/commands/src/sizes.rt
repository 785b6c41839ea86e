// Document 01, "The four frames": the bytes of a frame, an Update's by its first byte and one entry.
pub const INIT: usize = 6;

pub const STOP: usize = 1;

pub const SINGLE: usize = 4;

pub const FIRST: usize = 1;

pub const ENTRY: usize = 3;
