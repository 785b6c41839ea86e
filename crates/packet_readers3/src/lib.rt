// What Rust sees of the reader of the RehaMove3's packets: one reader for all commands, and one for each kind. Thin.
//
// The layout that both sides rely on (x86-64 Linux, C's rules, numbers in the machine's order):
//   &[u8], &mut [u8]   two arguments, a pointer and then a length of 8 bytes
//   Point              4 bytes: duration 0, code 2 (2 bytes each)
//   ReadPacket         88 bytes: used 0 (8 bytes), charge 8 (4 bytes, signed), command 12, size 14 (2 bytes each), answer 16, packet 17, voltage 18,
//                      result 19, electrode 20, execution 21, channel 22, number 23, points 24 (16 Points)
//   ReadEmpty          16 bytes: used 0 (8 bytes), answer 8, packet 10, command 12, size 14 (2 bytes each)
//   ReadVoltage        16 bytes: used 0 (8 bytes), answer 8, packet 9, command 10, size 12, voltage 14 (2 bytes each)
//   ReadResult         16 bytes: the same with result
//   ReadElectrode      16 bytes: used to size as ReadVoltage, then result 14, electrode 15
//   ReadConfig         88 bytes: used to packet as ReadPacket, then execution 18, channel 19, number 20 (4 bytes), points 24 (16 Points)
// Structs go by value. A reader puts the data of the packet to the start of its output, whatever the command, and hands back the report of the
// one reader: its answer, the bytes used, the packet number, the command's number, how many data bytes it put, and the values of its own kind,
// which are zero where the packet is refused or of another kind. Every byte of a struct is a field's.
#![tactic(auto)]

pub mod ll_channel_config;
pub mod ll_init;
pub mod ll_stop;
pub mod packet;
mod result;
