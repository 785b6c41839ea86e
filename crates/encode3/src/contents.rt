// The bytes of a content.
ghost use Rattle.std.specs.Prelude.{true, ◌++◌, ◌≡◌, ◌+◌, ◌≤◌, length};
ghost use Rattle.arrayvec.specs.ArrayVec.{array_vec_len};
ghost use Rattle.charge.specs.Charge.{of_paper, all};
ghost use Rattle.commands3.specs.Points.{point_bytes, bytes_of};
ghost use Rattle.commands3.specs.Commands.{first_byte, data_of, good_for};
ghost use Rattle.commands3.specs.Contents.{content_of, writable};

use arrayvec::ArrayVec;
use charge::Point;
use commands3::{Command, Message};

// The 32 bits of a point, the high byte first.
fn point_bytes(p: Point) -> [u8; 4]
    requires { of_paper p ≡ true }
    ensures { result ≡ point_bytes p }
{
    (p.duration as u32 * 1048576 + p.code as u32 * 1024).to_be_bytes()
}

fn first_byte(execution: u8, channel: u8, number: u16) -> u8
    requires { (execution ≤ 1) × (channel ≤ 3) × (1 ≤ number) × (number ≤ 16) }
    ensures { result ≡ first_byte execution channel number }
{
    execution * 128 + channel * 32 + (number - 1) as u8
}

// Puts bytes behind those that are there.
fn put(bytes: &mut ArrayVec<u8, 67>, more: &[u8])
    requires { array_vec_len bytes.old + length more.now ≤ 67 }
    ensures { bytes.new.items ≡ bytes.old.items ++ more.now }
{
    for b in more {
        bytes.push(*b);
    }
}

fn put_points(bytes: &mut ArrayVec<u8, 67>, points: &[Point])
    requires { (array_vec_len bytes.old ≡ 3) × (length points.now ≤ 16) × (all of_paper points.now ≡ true) }
    ensures { bytes.new.items ≡ bytes.old.items ++ bytes_of points.now }
{
    for p in points {
        put(bytes, &point_bytes(*p));
    }
}

fn put_data(bytes: &mut ArrayVec<u8, 67>, m: Message)
    requires { (array_vec_len bytes.old ≡ 2) × (good_for m.command m.pulse ≡ true) }
    ensures { bytes.new.items ≡ bytes.old.items ++ data_of m }
{
    let pulse = m.pulse;
    match m.command {
        Command::LlInit { voltage } => bytes.push(voltage * 2),
        Command::LlInitAck { result } => bytes.push(result),
        Command::LlChannelConfig { execution, channel } => {
            bytes.push(first_byte(execution, channel, pulse.number));
            put_points(bytes, &pulse.points[..pulse.number as usize]);
        }
        Command::LlChannelConfigAck { result, electrode } => put(bytes, &[result, electrode]),
        Command::LlStop => {}
        Command::LlStopAck { result } => bytes.push(result),
        Command::Other { .. } => {}
    }
}

// Packet number and command number, and behind them the data.
pub fn content(packet: u8, m: Message) -> ArrayVec<u8, 67>
    requires { writable packet m ≡ true }
    ensures { result.items ≡ content_of packet m }
{
    let head = packet as u16 * 1024 + commands3::number(m.command);
    let mut bytes = ArrayVec::new();
    put(&mut bytes, &head.to_be_bytes());
    put_data(&mut bytes, m);
    bytes
}
