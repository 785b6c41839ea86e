// Packets on the line, which RehaStim2 and RehaMove3 share: one written, and the first one found in a row of bytes.
#![tactic(auto)]

ghost use Rattle.std.specs.Prelude.{◌≡◌, ◌+◌, ◌-◌, ◌≤◌, cond, ◌||◌, eqb, leb, length, drop};
ghost use Rattle.std.proofs.lemmas.List.Edits.{sets};
ghost use Rattle.stuffing.specs.Stuffing.{start_byte, stop_byte, pair, stuffed_byte, stuffed, pairs};
ghost use Rattle.framing.specs.Packet.{packet_of, size_written, some_size, written_to};
ghost use Rattle.framing.specs.Scan.{opens, closes, scan, finished};
ghost use Rattle.framing.specs.Walked.{Walks};
ghost use Rattle.framing.specs.Blocks.{quiet};

use stuffing::{KEY, START, STOP, STUFFING};

// Where a finished packet lies: its first byte after the start, and the place after its stop.
#[derive(Clone, Copy, PartialEq, Eq, Debug)]
pub struct Found {
    pub body: usize,
    pub used: usize,
}

fn is_mark(b: u8) -> bool
    ensures { result ≡ (eqb b start_byte || eqb b stop_byte) }
{
    (b == START) | (b == STOP)
}

fn is_close(prev: u8, body: usize, b: u8) -> bool
    ensures { result ≡ closes prev body b }
{
    (prev != STUFFING) & ((b == STOP) & (0 < body))
}

fn is_open(prev: u8, b: u8) -> bool
    ensures { result ≡ opens prev b }
{
    (prev != STUFFING) & (b == START)
}

// How many bytes are passed over at once.
const BLOCK: usize = 16;

// The end of the block at place at: n where no whole block is left.
fn block_end(n: usize, at: usize) -> usize
    requires { at ≤ n }
    ensures { result ≡ cond (leb 16 (n - at)) (at + 16) n }
{
    if BLOCK <= n - at { at + BLOCK } else { n }
}

// Is a whole block left at place at, and no byte of it special?
fn is_quiet(s: &[u8], at: usize) -> bool
    requires { at ≤ length s.now }
    ensures { result ≡ quiet s.now at }
{
    BLOCK <= s.len() - at && !stuffing::any_special(&s[at..at + BLOCK])
}

// What a walk along some bytes comes to: a finished packet, or what is known behind the bytes, which is the last of them and where the body of the
// open packet begins. No Result: to be unfinished is no error, and both have values. A body never lies at 0, which stands for no open packet: an Option says no more, and is looked at for each byte.
#[derive(Clone, Copy)]
enum Walked {
    Finished(Found),
    Unfinished { prev: u8, body: usize },
}

// The bytes from at to end passed one by one, by their places, which tell where a packet begins and ends.
fn walk(s: &[u8], last: u8, start: usize, from: usize, end: usize) -> Walked
    requires { (from ≤ end) × (end ≤ length s.now) }
    ensures { Walks result (scan last start from (drop from s.now)) end (drop end s.now) }
{
    let mut prev = last;
    let mut body = start;
    for at in from..end {
        let b = s[at];
        if is_mark(b) {
            if is_close(prev, body, b) {
                let used = at + 1;
                return Walked::Finished(Found { body, used });
            }
            if is_open(prev, b) {
                body = at + 1;
            }
        }
        prev = b;
    }
    Walked::Unfinished { prev, body }
}

// The first packet that is finished in s. In a quiet block nothing opens or closes, and no byte behind it stands straight after a stuffing byte.
pub fn find(s: &[u8]) -> Option<Found>
    ensures { result ≡ finished (scan 0 0 0 s.now) }
{
    // 0 stands for any byte that is not a stuffing byte.
    let mut prev: u8 = 0;
    let mut body = 0;
    let mut at = 0;
    // A turn goes to the end of a block.
    while at < s.len() {
        let end = block_end(s.len(), at);
        if is_quiet(s, at) {
            prev = 0;
        } else {
            match walk(s, prev, body, at, end) {
                Walked::Finished(found) => return Some(found),
                Walked::Unfinished {
                    prev: last,
                    body: open,
                } => {
                    prev = last;
                    body = open;
                }
            }
        }
        at = end;
    }
    None
}

// Puts b stuffed at place at, and gives the place after it.
fn put_pair(out: &mut [u8], at: usize, b: u8) -> usize
    requires { at + 2 ≤ length out.old }
    ensures { (result ≡ at + 2) × (out.new ≡ sets out.old at (pair b)) }
{
    out[at] = STUFFING;
    out[at + 1] = b ^ KEY;
    at + 2
}

// Puts b at place at, stuffed if it must be, and gives the place after it.
fn put(out: &mut [u8], at: usize, b: u8) -> usize
    requires { at + length (stuffed_byte b) ≤ length out.old }
    ensures { (result ≡ at + length (stuffed_byte b)) × (out.new ≡ sets out.old at (stuffed_byte b)) }
{
    if stuffing::is_special(b) {
        put_pair(out, at, b)
    } else {
        out[at] = b;
        at + 1
    }
}

// Puts bytes from place at on, each stuffed if it must be, and gives the place after them.
fn put_stuffed(out: &mut [u8], at: usize, bytes: &[u8]) -> usize
    requires { at + length (stuffed bytes.now) ≤ length out.old }
    ensures { (result ≡ at + length (stuffed bytes.now)) × (out.new ≡ sets out.old at (stuffed bytes.now)) }
{
    let mut to = at;
    for b in bytes {
        to = put(out, to, *b);
    }
    to
}

// Puts bytes from place at on, each stuffed, and gives the place after them. A loop handed another `put` would say no less.
fn put_pairs(out: &mut [u8], at: usize, bytes: &[u8]) -> usize
    requires { at + length (pairs bytes.now) ≤ length out.old }
    ensures { (result ≡ at + length (pairs bytes.now)) × (out.new ≡ sets out.old at (pairs bytes.now)) }
{
    let mut to = at;
    for b in bytes {
        to = put_pair(out, to, *b);
    }
    to
}

// Has out room for the packet? No sum that could pass 64 bits.
fn has_room(room: usize, header: &[u8], content: &[u8]) -> bool
    ensures { result ≡ leb (length (packet_of header.now content.now)) room }
{
    let h = header.len();
    h < room / 2 && stuffing::stuffed_size(content) <= room - 2 * h - 2
}

fn put_packet(out: &mut [u8], header: &[u8], content: &[u8]) -> usize
    requires { length (packet_of header.now content.now) ≤ length out.old }
    ensures { (result ≡ length (packet_of header.now content.now)) × (out.new ≡ sets out.old 0 (packet_of header.now content.now)) }
{
    out[0] = START;
    let a = put_pairs(out, 1, header);
    let b = put_stuffed(out, a, content);
    out[b] = STOP;
    b + 1
}

// Writes a packet to the start of out, and says how many bytes it has: none where out is too short, and then out stays.
pub fn write(out: &mut [u8], header: &[u8], content: &[u8]) -> Option<usize>
    ensures size { result ≡ some_size (size_written out.old header.now content.now) }
    ensures put { out.new ≡ written_to out.old header.now content.now }
{
    if has_room(out.len(), header, content) {
        Some(put_packet(out, header, content))
    } else {
        None
    }
}
