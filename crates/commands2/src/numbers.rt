// Source 000, section 3: the number of each command that is carried.
pub const INIT: u8 = 1;

pub const INIT_ACK: u8 = 2;

pub const UNKNOWN_COMMAND: u8 = 3;

pub const WATCHDOG: u8 = 4;

pub const GET_STIMULATION_MODE: u8 = 10;

pub const GET_STIMULATION_MODE_ACK: u8 = 11;

pub const INIT_CHANNEL_LIST_MODE: u8 = 30;

pub const INIT_CHANNEL_LIST_MODE_ACK: u8 = 31;
