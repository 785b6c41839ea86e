// The writer of packets of ScienceMode2 (request 12; source 000, section 2.2).
#![tactic(auto)]

ghost use Rattle.std.specs.Prelude.{◌≡◌, ◌∷◌, ◌≤◌, length};
ghost use Rattle.commands.specs.Refusals.{report};
ghost use Rattle.framing.specs.Packet.{size_written, some_size, written_to};
ghost use Rattle.packets2.specs.Rehastim2.{header_of};
ghost use Rattle.writer2.specs.Writer.{content_of, wrote, written};

use commands::Wrote;
use commands::refusals::Refusal;
use commands2::Command;
use packets::Told;

// Writes the packet of a content, whose length has one byte here, so that the RehaMove3 has a function of its own: how many bytes it has, none where out is too short.
fn write_content(content: &[u8], out: &mut [u8]) -> Option<usize>
    requires { length content.now ≤ 62 }
    ensures size { result ≡ some_size (size_written out.old (header_of content.now) content.now) }
    ensures put { out.new ≡ written_to out.old (header_of content.now) content.now }
{
    let told: Told<u8> = packets::sum_stuffed(content);
    let header = [told.check, told.size as u8];
    framing::write(out, &header, content)
}

// What a command's packet holds, by value and place by place: packet number, command, data.
fn content_of(packet: u8, number: u8, d: [u8; 7]) -> [u8; 9]
    ensures { result ≡ packet ∷ number ∷ d }
{
    [packet, number, d[0], d[1], d[2], d[3], d[4], d[5], d[6]]
}

// The packet of a good command: how many bytes it has, none where out is too short.
fn write_good(packet: u8, c: Command, out: &mut [u8]) -> Option<usize>
    ensures size { result ≡ some_size (size_written out.old (header_of (content_of packet c)) (content_of packet c)) }
    ensures put { out.new ≡ written_to out.old (header_of (content_of packet c)) (content_of packet c) }
{
    let d = commands2::data_of(c);
    let bytes = d.bytes;
    let n = d.size + 2;
    let content = content_of(packet, commands2::number(c), bytes);
    write_content(&content[..n], out)
}

// The same of any command.
fn put_packet(packet: u8, c: Command, out: &mut [u8]) -> Result<u8, Refusal>
    ensures told { report result ≡ wrote packet c out.old }
    ensures put { out.new ≡ written packet c out.old }
{
    if !commands2::good(c) {
        return Err(Refusal::NotGood);
    }
    match write_good(packet, c, out) {
        Some(used) => Ok(used as u8),
        None => Err(Refusal::OutputTooShort),
    }
}

// Writes the packet of a command under a packet number to the start of out.
pub fn write_packet(packet: u8, c: Command, out: &mut [u8]) -> Wrote
    ensures { (result ≡ wrote packet c out.old) × (out.new ≡ written packet c out.old) }
{
    put_packet(packet, c, out).into()
}
