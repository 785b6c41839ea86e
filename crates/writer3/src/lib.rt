// The writer of packets of the RehaMove3 (request 13; source 002, section 2.2).
#![tactic(auto)]

ghost use Rattle.std.specs.Prelude.{◌≡◌, ◌≤◌, length};
ghost use Rattle.commands.specs.Refusals.{report};
ghost use Rattle.framing.specs.Packet.{size_written, some_size, written_to};
ghost use Rattle.packets3.specs.Rehamove3.{header_of};
ghost use Rattle.packets3.specs.Writer.{wrote, written};

use commands::Wrote;
use commands::refusals::Refusal;
use commands3::Message;
use packets::Told;

// Writes the packet of a content that a message makes: how many bytes it has, none where out is too short.
fn write_content(content: &[u8], out: &mut [u8]) -> Option<usize>
    requires { length content.now ≤ 67 }
    ensures size { result ≡ some_size (size_written out.old (header_of content.now) content.now) }
    ensures put { out.new ≡ written_to out.old (header_of content.now) content.now }
{
    let told: Told<u16> = packets::sum_stuffed(content);
    let n = told.size + 10;
    let header = [
        (n / 256) as u8,
        (n % 256) as u8,
        (told.check / 256) as u8,
        (told.check % 256) as u8,
    ];
    framing::write(out, &header, content)
}

// Puts the packet of a message under a packet number to the start of out, and says how many bytes it has.
fn put_packet(packet: u8, m: Message, out: &mut [u8]) -> Result<u8, Refusal>
    ensures told { report result ≡ wrote packet m out.old }
    ensures put { out.new ≡ written packet m out.old }
{
    let Some(content) = encode3::encode(packet, m) else {
        return Err(Refusal::NotGood);
    };
    match write_content(content.as_slice(), out) {
        Some(used) => Ok(used as u8),
        None => Err(Refusal::OutputTooShort),
    }
}

// Writes the packet of a message under a packet number to the start of out.
pub fn write_packet(packet: u8, m: Message, out: &mut [u8]) -> Wrote
    ensures { (result ≡ wrote packet m out.old) × (out.new ≡ written packet m out.old) }
{
    put_packet(packet, m, out).into()
}
