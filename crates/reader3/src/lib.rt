// The reader of one packet of the RehaMove3 (request 13; source 002, section 2.2): its tests in their order, and what it reports.
#![tactic(auto)]

ghost use Rattle.std.specs.Prelude.{◌≡◌, refl, ◌+◌, ◌≤◌, length, drop};
ghost use Rattle.packets.specs.Reader.{data_put};
ghost use Rattle.packets3.specs.Rehamove3.{says, rehamove3};
ghost use Rattle.packets3.proofs.Asked.{behind, few, two};
ghost use Rattle.reader3.specs.Decoding.{decoding, lawful, as_decoded};
ghost use Rattle.reader3.specs.Reader.{read_packet};

use commands::refusals::DONE;
use commands3::{Command, Message, NO_PULSE};
use decode3::Decoded;
use packets::{Meaning, Packet, Protocol, Refused};
use stuffing::{KEY, STUFFING};

// What reading a packet reports: its answer, the bytes used, the packet number, the message, how many data bytes it put to the output, and the net
// charge of the message's pulse. It stays one record with an answer's number, zero where no packet was read, as the C interface hands it on
// (`as_packet` in packet_readers3).
#[derive(Clone, Copy)]
pub struct Read {
    pub answer: u8,
    pub used: usize,
    pub packet: u8,
    pub message: Message,
    pub size: u16,
    pub charge: i32,
}

// Do the four bytes from place at on say n, each byte of it stuffed and the high one first?
fn is_said(b: &[u8], at: usize, n: u16) -> bool
    requires { at + 4 ≤ length b.now }
    ensures { result ≡ says (drop at b.now) n }
{
    let high = (n / 256) as u8;
    let low = (n % 256) as u8;
    (b[at] == STUFFING)
        & ((b[at + 1] == high ^ KEY) & ((b[at + 2] == STUFFING) & (b[at + 3] == low ^ KEY)))
}

// How long a packet may be without its start and its stop.
const LONGEST: usize = 1198;

// The RehaMove3's as a protocol of packets.
struct Rehamove3;

impl Protocol<1190> for Rehamove3 {
    type Command = Decoded;

    ghost generation = { decoding };

    fn header() -> usize {
        8
    }

    fn check_right(body: &[u8]) -> bool {
        if body.len() < 8 {
            return false;
        }
        is_said(body, 4, crc::check16(0, &body[8..]))
    }

    fn length_right(body: &[u8]) -> bool {
        let n = body.len();
        if n < 4 {
            return false;
        }
        if LONGEST < n {
            return false;
        }
        is_said(body, 0, (n + 2) as u16)
    }

    fn told(content: &[u8]) -> Option<Meaning<Decoded>> {
        let command = decode3::decode(content)?;
        Some(Meaning {
            packet: command.packet,
            command,
            size: content.len() - 2,
        })
    }

    ghost behind = { behind };

    ghost lawful = { lawful };

    ghost most = { refl };

    ghost few = { few };

    ghost two = { two };
}

// What is reported of a packet that was read.
fn report(used: usize, packet: u8, d: Decoded, size: u16) -> Read
    ensures { result ≡ as_decoded (record { answer = 0; used = used; packet = packet; command = d; size = size }) }
{
    let message = d.message;
    Read {
        answer: DONE,
        used,
        packet,
        message,
        size,
        charge: d.charge,
    }
}

// Reads the first packet that is finished in s, and puts its data to the start of out.
pub fn read_packet(s: &[u8], out: &mut [u8]) -> Read
    ensures { (result ≡ read_packet s.now (length out.old)) × (out.new ≡ data_put rehamove3 s.now out.old) }
{
    match packets::read::<Rehamove3, 1190>(s, out) {
        Ok(Packet { used, meaning }) => {
            report(used, meaning.packet, meaning.command, meaning.size as u16)
        }
        Err(Refused { refusal, used }) => Read {
            answer: refusal.number(),
            used,
            packet: 0,
            message: Message {
                command: Command::Other { number: 0 },
                pulse: NO_PULSE,
            },
            size: 0,
            charge: 0,
        },
    }
}
