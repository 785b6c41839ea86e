// What Rust sees of the reader of packets of ScienceMode2 (RehaStim2): one reader for all commands, and one for each kind. Thin.
//
// The layout that both sides rely on (x86-64 Linux, C's rules, numbers in the machine's order):
//   &[u8], &mut [u8]   two arguments, a pointer and then a length of 8 bytes
//   ReadPacket         24 bytes: used 0 (8 bytes), answer 8, packet 9, command 10, size 11, version 12, echo 13, mode 14, result 15 (signed),
//                      factor 16, active 17, lf 18, inter 19, main 20 (2 bytes), execution 22 (2 bytes)
//   ReadEmpty          16 bytes: used 0 (8 bytes), answer 8, packet 10, command 12, size 14 (2 bytes each)
//   ReadVersion        16 bytes: used to size as ReadPacket, then version 12 (4 bytes)
//   ReadEcho           16 bytes: the same with echo
//   ReadResult         16 bytes: used 0 (8 bytes), answer 8, packet 10, command 12 (2 bytes each), size 14, result 15 (signed)
//   ReadMode           16 bytes: used 0 (8 bytes), answer 8, packet 9, command 10, size 12 (2 bytes each), result 14 (signed), mode 15
//   ReadList           24 bytes: used to size as ReadPacket, then factor 12, active 13, lf 14, inter 15, main 16 (4 bytes), execution 20 (4 bytes)
// Structs go by value. A reader puts the data of the packet to the start of its output, whatever the command, and hands back the report of the
// one reader: its answer, the bytes used, the packet number, the command's number, how many data bytes it put, and the values of its own kind,
// which are zero where the packet is refused or of another kind. Every byte of a struct is a field's.
#![tactic(auto)]

pub mod get_stimulation_mode;
pub mod init;
pub mod init_channel_list_mode;
pub mod packet;
mod result;
pub mod unknown_command;
pub mod watchdog;
