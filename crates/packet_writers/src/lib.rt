// What Rust sees of the writer of packets of ScienceMode2 (RehaStim2): one for each kind of command. Thin.
//
// The layout that both sides rely on (x86-64 Linux, C's rules):
//   &mut [u8]          two arguments, a pointer and then a length of 8 bytes
//   Wrote              2 bytes: answer 0, used 1
// Structs go by value.
#![tactic(auto)]

pub mod get_stimulation_mode;
pub mod init;
pub mod init_channel_list_mode;
pub mod unknown_command;
pub mod watchdog;
