// What Rust sees of frames: a reader and a writer for each kind, and the reply byte. Thin.
//
// The layout that both sides rely on (x86-64 Linux, C's rules, numbers in the machine's order):
//   &[u8], &mut [u8]   two arguments, a pointer and then a length of 8 bytes
//   Init               6 bytes: factor 0, stim 1, lf 2, group 3, main 4 (2 bytes)
//   Setting            4 bytes: width 0 (2 bytes), mode 2, current 3
//   Settings           32 bytes: eight settings
//   Single             4 bytes: width 0 (2 bytes), channel 2, current 3
//   Wrote              2 bytes: answer 0, used 1
//   ReadStop           4 bytes: answer 0, ident 1, used 2 (2 bytes)
//   ReadInit           10 bytes: as ReadStop, then init 4
//   ReadSingle         8 bytes: as ReadStop, then single 4
//   ReadUpdate         36 bytes: as ReadStop, then settings 4
// Structs go by value. A reader hands back the report of the one reader: its answer, the Ident of the frame, the bytes used, and the
// fields of its own kind, which are zero where the frame is refused or of another kind. Every byte of a struct is a field's.
#![tactic(auto)]

pub mod init;
pub mod reply;
pub mod single;
pub mod stop;
pub mod update;
