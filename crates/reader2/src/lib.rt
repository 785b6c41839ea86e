// The reader of one packet of ScienceMode2 (request 12; source 000, section 2.2): its tests in their order, and what it reports.
#![tactic(auto)]

ghost use Rattle.std.specs.Prelude.{◌≡◌, refl, length};
ghost use Rattle.packets.specs.Reader.{data_put};
ghost use Rattle.packets2.specs.Rehastim2.{size_good, command_in, rehastim2};
ghost use Rattle.packets2.proofs.Lawful.{lawful};
ghost use Rattle.reader2.specs.Reader.{as_read, read_packet};
ghost use Rattle.packets2.proofs.Asked.{behind, few, two};

use commands::refusals::DONE;
use commands2::Command;
use packets::{Meaning, Packet, Protocol, Refused};
use stuffing::{KEY, STUFFING};

// What reading a packet reports: its answer, the bytes used, the packet number, the command, and how many data bytes it put to the output. It stays
// one record with an answer's number, zero where no packet was read, as the C interface hands it on (`as_packet` in packet_readers).
#[derive(Clone, Copy)]
pub struct Read {
    pub answer: u8,
    pub used: usize,
    pub packet: u8,
    pub command: Command,
    pub size: u8,
}

// Packet number, command and at most 60 bytes of data.
fn size_good(n: usize) -> bool
    ensures { result ≡ size_good n }
{
    (2 <= n) & (n <= 62)
}

// The command whose number and values stand behind the packet number.
fn command_in(p: &[u8]) -> Command
    ensures { result ≡ command_in p.now }
{
    let d = [
        slices::byte_at(p, 2),
        slices::byte_at(p, 3),
        slices::byte_at(p, 4),
        slices::byte_at(p, 5),
        slices::byte_at(p, 6),
        slices::byte_at(p, 7),
        slices::byte_at(p, 8),
    ];
    commands2::command_of(slices::byte_at(p, 1), d)
}

// ScienceMode2 as a protocol of packets.
struct Rehastim2;

impl Protocol<62> for Rehastim2 {
    type Command = Command;

    ghost generation = { rehastim2 };

    fn header() -> usize {
        4
    }

    // One over no byte is 0.
    fn check_right(body: &[u8]) -> bool {
        if body.len() < 2 {
            return false;
        }
        if body.len() < 4 {
            return (body[0] == STUFFING) & (body[1] == KEY);
        }
        (body[0] == STUFFING) & (body[1] == crc::check8(0, &body[4..]) ^ KEY)
    }

    fn length_right(body: &[u8]) -> bool {
        if body.len() < 4 {
            return false;
        }
        (body[2] == STUFFING) & (body[3] as usize == (body.len() - 4) ^ (KEY as usize))
    }

    fn told(content: &[u8]) -> Option<Meaning<Command>> {
        if !size_good(content.len()) {
            return None;
        }
        let command = command_in(content);
        let size = content.len() - 2;
        if !commands2::right(command, size) {
            return None;
        }
        Some(Meaning {
            packet: slices::byte_at(content, 0),
            command,
            size,
        })
    }

    ghost behind = { behind };

    ghost lawful = { lawful };

    ghost most = { refl };

    ghost few = { few };

    ghost two = { two };
}

// Reads the first packet that is finished in s, and puts its data to the start of out.
pub fn read_packet(s: &[u8], out: &mut [u8]) -> Read
    ensures { (result ≡ read_packet s.now (length out.old)) × (out.new ≡ data_put rehastim2 s.now out.old) }
{
    match packets::read::<Rehastim2, 62>(s, out) {
        Ok(Packet { used, meaning }) => Read {
            answer: DONE,
            used,
            packet: meaning.packet,
            command: meaning.command,
            size: meaning.size as u8,
        },
        Err(Refused { refusal, used }) => Read {
            answer: refusal.number(),
            used,
            packet: 0,
            command: Command::Other { number: 0 },
            size: 0,
        },
    }
}
