// What packets of RehaStim2 and RehaMove3 have in common, read and written: definitions and theorems over any generation, in specs/ and proofs/,
// what the header of each tells of the bytes behind it, and one reader of all.
#![tactic(auto)]

ghost use Rattle.std.specs.Prelude.{◌≡◌, ℕ, List, true, cond, eqb, ◌+◌, ◌<◌, ◌≤◌, length, IfOk};
ghost use Rattle.commands.specs.Refusals.{number};
ghost use Rattle.crc.specs.Crc.{crc};
ghost use Rattle.stuffing.specs.Stuffing.{stuffed};
ghost use Rattle.packets.specs.Generation.{Generation};
ghost use Rattle.packets.specs.Laws.{Lawful};
ghost use Rattle.packets.specs.Reader.{plain, covered, covered_answer, body_answer, reading, put, data_put};
ghost use Rattle.packets.specs.Reported.{told, Tells, reported};

use commands::refusals::Refusal;
use crc::Remainder;
use stuffing::{KEY, STUFFING};

// What the header tells of the bytes behind it: their check, and how many they are.
#[derive(Clone, Copy)]
pub struct Told<R> {
    pub check: R,
    pub size: usize,
}

// Of these bytes, stuffed, which no buffer holds.
pub fn sum_stuffed<R: Remainder>(bytes: &[u8]) -> Told<R>
    ensures check { R.number result.check ≡ crc R.top R.polynomial 0 (stuffed bytes.now) }
    ensures size { result.size ≡ length (stuffed bytes.now) }
{
    let mut check = R::start();
    let mut size = bytes.len();
    for byte in bytes {
        let mut b = *byte;
        if stuffing::is_special(b) {
            check = check.after(STUFFING);
            size += 1;
            b ^= KEY;
        }
        check = check.after(b);
    }
    Told { check, size }
}

// ---- the reader

// What a generation says of its packets to the one reader of all. A content has MOST bytes at most.
pub trait Protocol<const MOST: usize> {
    // What is told of a command and its data.
    type Command: Copy;

    ghost generation: { Generation Self.Command };

    // How many bytes of a body are its header.
    fn header() -> usize
        ensures { result ≡ generation.header };

    fn check_right(body: &[u8]) -> bool
        ensures { result ≡ generation.check_right body.now };

    fn length_right(body: &[u8]) -> bool
        ensures { result ≡ generation.length_right body.now };

    // What a content means, where it is good.
    fn told(content: &[u8]) -> Option<Meaning<Self::Command>>
        ensures { result ≡ told generation content.now };

    ghost behind: { (body : List ℕ) → generation.check_right body ≡ true → generation.length_right body ≡ true → generation.header ≤ length body };

    ghost lawful: { Lawful generation };

    ghost most: { MOST ≡ generation.longest + 2 };

    ghost few: { MOST < 65536 };

    ghost two: { (n : ℕ) → generation.size_good n ≡ true → 2 ≤ n };
}

// What a content means: packet number, command, and how many bytes of data stand behind them.
#[derive(Clone, Copy)]
pub struct Meaning<C> {
    pub packet: u8,
    pub command: C,
    pub size: usize,
}

// A packet that was read, and the bytes used.
#[derive(Clone, Copy)]
pub struct Packet<C> {
    pub used: usize,
    pub meaning: Meaning<C>,
}

// Why none was read, and the bytes used all the same.
#[derive(Clone, Copy, PartialEq, Eq, Debug)]
pub struct Refused {
    pub refusal: Refusal,
    pub used: usize,
}

// A packet whose covered bytes are those that the writer makes of the plain ones.
fn read_plain<P: Protocol<MOST>, const MOST: usize>(
    plain: &[u8],
    out: &mut [u8],
) -> Result<Meaning<P::Command>, Refusal>
    ensures told { Tells P.generation result (covered_answer P.generation (stuffed plain.now) (length out.old)) (stuffed plain.now) }
    ensures put { out.new ≡ put (covered_answer P.generation (stuffed plain.now) (length out.old)) (stuffed plain.now) out.old }
{
    let Some(meaning) = P::told(plain) else {
        return Err(Refusal::NotGood);
    };
    if out.len() < meaning.size {
        return Err(Refusal::OutputTooShort);
    }
    slices::copy(out, &plain[2..]);
    Ok(meaning)
}

// Covered bytes. Where none is special they stand for themselves.
fn read_covered<P: Protocol<MOST>, const MOST: usize>(
    covered: &[u8],
    out: &mut [u8],
) -> Result<Meaning<P::Command>, Refusal>
    requires { P.generation.size_good (length (plain covered.now)) ≡ true → length (plain covered.now) ≤ MOST }
    ensures told { Tells P.generation result (covered_answer P.generation covered.now (length out.old)) covered.now }
    ensures put { out.new ≡ put (covered_answer P.generation covered.now (length out.old)) covered.now out.old }
{
    if !stuffing::any_special(covered) {
        return read_plain::<P, MOST>(covered, out);
    }
    let mut plain = [0; MOST];
    match stuffing::unstuff(&mut plain, covered) {
        Ok(n) if n <= MOST => read_plain::<P, MOST>(&plain[..n], out),
        _ => Err(Refusal::NotGood),
    }
}

fn read_body<P: Protocol<MOST>, const MOST: usize>(
    body: &[u8],
    out: &mut [u8],
) -> Result<Meaning<P::Command>, Refusal>
    ensures told { Tells P.generation result (body_answer P.generation body.now (length out.old)) (covered P.generation body.now) }
    ensures put { out.new ≡ put (body_answer P.generation body.now (length out.old)) (covered P.generation body.now) out.old }
    ensures short { IfOk result (λ meaning. meaning.size ≤ P.generation.longest) }
{
    if !P::check_right(body) {
        return Err(Refusal::WrongCheck);
    }
    if !P::length_right(body) {
        return Err(Refusal::NotGood);
    }
    read_covered::<P, MOST>(&body[P::header()..], out)
}

// How many bytes a refused packet uses up: none where its data has no room.
fn used_up(refusal: Refusal, used: usize) -> usize
    ensures { result ≡ cond (eqb (number refusal) 16) 0 used }
{
    match refusal {
        Refusal::OutputTooShort => 0,
        _ => used,
    }
}

// Reads the first packet that is finished in s, and puts its data to the start of out.
pub fn read<P: Protocol<MOST>, const MOST: usize>(
    s: &[u8],
    out: &mut [u8],
) -> Result<Packet<P::Command>, Refused>
    ensures read { reported P.generation result ≡ reading P.generation s.now (length out.old) }
    ensures put { out.new ≡ data_put P.generation s.now out.old }
    ensures short { IfOk result (λ packet. packet.meaning.size ≤ P.generation.longest) }
{
    let Some(found) = framing::find(s) else {
        let refusal = Refusal::Unfinished;
        return Err(Refused { refusal, used: 0 });
    };
    let body = found.body;
    let used = found.used;
    let end = used - 1;
    match read_body::<P, MOST>(&s[body..end], out) {
        Ok(meaning) => Ok(Packet { used, meaning }),
        Err(refusal) => {
            let used = used_up(refusal, used);
            Err(Refused { refusal, used })
        }
    }
}
