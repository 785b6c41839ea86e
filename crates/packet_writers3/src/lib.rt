// What Rust sees of the writer of the RehaMove3's packets: one for each kind of command; and of the net charge of a pulse. Thin.
//
// The layout that both sides rely on (x86-64 Linux, C's rules, numbers in the machine's order):
//   &mut [u8]          two arguments, a pointer and then a length of 8 bytes
//   Point              4 bytes: duration 0, code 2 (2 bytes each)
//   Pulse              66 bytes: number 0 (2 bytes), points 2 (16 Points)
//   Wrote              2 bytes: answer 0, used 1
//   Weighed            8 bytes: charge 0 (4 bytes, signed), answer 4 (4 bytes)
// Structs go by value.
#![tactic(auto)]

mod alone;
pub mod ll_channel_config;
pub mod ll_init;
pub mod ll_stop;
pub mod net_charge;
