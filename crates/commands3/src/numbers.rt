// Source 002, section 4.1: the number of each command that is carried.
pub const LL_INIT: u16 = 0;

pub const LL_INIT_ACK: u16 = 1;

pub const LL_CHANNEL_CONFIG: u16 = 2;

pub const LL_CHANNEL_CONFIG_ACK: u16 = 3;

pub const LL_STOP: u16 = 4;

pub const LL_STOP_ACK: u16 = 5;
