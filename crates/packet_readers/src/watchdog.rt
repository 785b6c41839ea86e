// Watchdog, read.
ghost use Rattle.std.specs.Prelude.{◌≡◌, length};
ghost use Rattle.packets.specs.Reader.{data_put};
ghost use Rattle.packets2.specs.Rehastim2.{rehastim2};
ghost use Rattle.reader2.specs.Reader.{read_packet};
ghost use Rattle.packet_readers.specs.Reports.{as_packet, as_empty};

use crate::packet;
use crate::packet::ReadEmpty;

#[unsafe(no_mangle)]
pub extern "C" fn yarrowbell_rehastim2_read_watchdog(s: &[u8], out: &mut [u8]) -> ReadEmpty
    ensures { (result ≡ as_empty (as_packet (read_packet s.now (length out.old)))) × (out.new ≡ data_put rehastim2 s.now out.old) }
{
    ReadEmpty::from(packet::yarrowbell_rehastim2_read(s, out))
}
