// What Rust sees of the trace as a text sheet (request 03): its writer and its reader. Thin.
//
// The layout that both sides rely on (x86-64 Linux, C's rules, numbers in the machine's order):
//   &[u8], &mut [u8]   two arguments, a pointer and then a length of 8 bytes
//   Written            16 bytes: answer 0, used 8 (8 bytes each)
//   Read               24 bytes: answer 0, line 8, used 16 (8 bytes each)
// Structs go by value. Every byte of a struct is a field's.
#![tactic(auto)]

ghost use Rattle.std.specs.Prelude.{◌≡◌, length};
ghost use Rattle.sheet.specs.Calls.{written, sheet_put, read, readout_put};

use sheet::{Read, Written};

#[unsafe(no_mangle)]
pub extern "C" fn yarrowbell_sheet_write(readout: &[u8], out: &mut [u8]) -> Written
    ensures { (result ≡ written readout.now (length out.old)) × (out.new ≡ sheet_put readout.now out.old) }
{
    sheet_writer::write_sheet(readout, out)
}

#[unsafe(no_mangle)]
pub extern "C" fn yarrowbell_sheet_read(sheet: &[u8], out: &mut [u8]) -> Read
    ensures { (result ≡ read sheet.now (length out.old)) × (out.new ≡ readout_put sheet.now out.old) }
{
    sheet_reader::read_sheet(sheet, out)
}
