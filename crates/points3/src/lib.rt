// The pulse of a channel config of the RehaMove3, read of its data (request 13; source 002, section 4.2).
#![tactic(auto)]

ghost use Rattle.std.specs.Prelude.{◌≡◌, ◌+◌, ◌*◌, ◌≤◌, length, drop};
ghost use Rattle.commands3.specs.Points.{word_in};
ghost use Rattle.points3.specs.Pulses.{point_of, points_read, pulse_read};

use charge::{Point, Pulse};
use commands3::NO_PULSE;

// A pulse and its net charge.
#[derive(Clone, Copy)]
pub struct PulseRead {
    pub pulse: Pulse,
    pub charge: i32,
}

// Points, zeros behind them, and what they add to the net charge.
#[derive(Clone, Copy)]
struct PointsRead {
    points: [Point; 16],
    charge: i32,
}

// The 32 bits of the point at a place, the high byte first.
fn word_at(d: &[u8], at: usize) -> u32
    requires { at + 4 ≤ length d.now }
    ensures { result ≡ word_in (drop at d.now) }
{
    u32::from_be_bytes([d[at], d[at + 1], d[at + 2], d[at + 3]])
}

fn point_of(w: u32) -> Point
    ensures { result ≡ point_of w }
{
    Point {
        duration: (w / 1048576) as u16,
        code: (w / 1024 % 1024) as u16,
    }
}

// So many points, where all are good and have no reserved bit set.
fn points_in(number: usize, d: &[u8]) -> Option<PointsRead>
    requires { (number ≤ 16) × (length d.now ≡ 4 * number) }
    ensures { result ≡ points_read number d.now }
{
    let mut points = NO_PULSE.points;
    let mut charge: i32 = 0;
    for i in 0..number {
        let w = word_at(d, 4 * i);
        if w % 1024 != 0 {
            return None;
        }
        let p = point_of(w);
        points[i] = p;
        charge += charge::weigh_point(p)?;
    }
    Some(PointsRead { points, charge })
}

// The pulse of the data, where it is a good one, with no byte too few or too many and no reserved bit set. The first byte tells how many points
// stand behind it.
pub fn pulse_in(d: &[u8]) -> Option<PulseRead>
    ensures { result ≡ pulse_read d.now }
{
    let first = slices::byte_at(d, 0);
    let number = (first % 16) as usize + 1;
    if d.len() != 4 * number + 1 || first / 16 % 2 != 0 {
        return None;
    }
    let read = points_in(number, &d[1..])?;
    let points = read.points;
    let pulse = Pulse {
        number: number as u16,
        points,
    };
    Some(PulseRead {
        pulse,
        charge: read.charge,
    })
}
