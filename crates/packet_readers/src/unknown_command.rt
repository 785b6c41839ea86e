// UnknownCommand, read.
ghost use Rattle.std.specs.Prelude.{◌≡◌, length};
ghost use Rattle.packets.specs.Reader.{data_put};
ghost use Rattle.packets2.specs.Rehastim2.{rehastim2};
ghost use Rattle.reader2.specs.Reader.{read_packet};
ghost use Rattle.packet_readers.specs.Reports.{as_packet, as_echo};

use crate::packet;

#[repr(C)]
#[derive(Clone, Copy)]
pub struct ReadEcho {
    pub used: usize,
    pub answer: u8,
    pub packet: u8,
    pub command: u8,
    pub size: u8,
    pub echo: u32,
}

#[unsafe(no_mangle)]
pub extern "C" fn yarrowbell_rehastim2_read_unknown_command(s: &[u8], out: &mut [u8]) -> ReadEcho
    ensures { (result ≡ as_echo (as_packet (read_packet s.now (length out.old)))) × (out.new ≡ data_put rehastim2 s.now out.old) }
{
    let p = packet::yarrowbell_rehastim2_read(s, out);
    ReadEcho {
        used: p.used,
        answer: p.answer,
        packet: p.packet,
        command: p.command,
        size: p.size,
        echo: p.echo as u32,
    }
}
