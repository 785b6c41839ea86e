// Points of a pulse of the RehaMove3 and its net charge (request 13; source 002, section 4.2, "Point definition").
#![tactic(auto)]

ghost use Rattle.std.specs.Prelude.{true, ◌&&◌, ◌≡◌, ◌≤◌, length, take, drop};
ghost use Rattle.charge.specs.Charge.{of_paper, point_good, is_zero_point, all, pulse_good, part_of, net_of, weighed_point, weighed};

// A duration in microseconds, and a current as twice the milliamps plus 300.
#[repr(C)]
#[derive(Clone, Copy, PartialEq, Eq)]
pub struct Point {
    pub duration: u16,
    pub code: u16,
}

// The first points are the pulse's, so many as number says; those past it are zero, as the C struct has them.
#[repr(C)]
#[derive(Clone, Copy, PartialEq, Eq)]
pub struct Pulse {
    pub number: u16,
    pub points: [Point; 16],
}

pub const NO_POINT: Point = Point {
    duration: 0,
    code: 0,
};

// ---- good values

fn is_good_point(p: Point) -> bool
    ensures { result ≡ point_good p }
{
    (p.duration <= 4095) & ((40 <= p.code) & (p.code <= 560))
}

// Tests are joined by `&`, without leaving early: a loop with branches takes longer.
fn all_good(points: &[Point]) -> bool
    ensures { result ≡ all point_good points.now }
{
    points.iter().fold(true, |good, p| good & is_good_point(*p))
}

fn all_zero(points: &[Point]) -> bool
    ensures { result ≡ all is_zero_point points.now }
{
    points.iter().fold(true, |zero, p| zero & (*p == NO_POINT))
}

// The pulse's points are good, those past its number zero.
#[tactic(auto, unfolding(crate::specs::Charge::pulse_good))]
fn is_good(p: Pulse) -> bool
    ensures { result ≡ pulse_good p }
{
    let number = p.number as usize;
    if number < 1 || 16 < number {
        return false;
    }
    let (numbered, rest) = p.points.split_at(number);
    all_good(numbered) & all_zero(rest)
}

// ---- the net charge

// At most 4095 * 300 in size.
fn part(p: Point) -> i32
    requires { of_paper p ≡ true }
    ensures { result ≡ part_of p }
{
    p.duration as i32 * (p.code as i32 - 300)
}

// A point's part of the net charge, where its values are good.
#[tactic(auto, using(crate::proofs::Points::paper_of_good), unfolding(crate::specs::Charge::weighed_point))]
pub fn weigh_point(p: Point) -> Option<i32>
    ensures { result ≡ weighed_point p }
{
    if !is_good_point(p) {
        return None;
    }
    Some(part(p))
}

// Of sixteen points, at most 19,656,000 in size.
fn net(points: &[Point]) -> i32
    requires { (length points.now ≤ 16) × (all of_paper points.now ≡ true) }
    ensures { result ≡ net_of points.now }
{
    let mut sum: i32 = 0;
    for p in points {
        sum += part(*p);
    }
    sum
}

// The net charge of a pulse in half milliamp microseconds, where its values are good.
#[tactic(auto, using(crate::proofs::Theorems::few_points, crate::proofs::Theorems::paper_points, crate::proofs::Theorems::length_points), unfolding(crate::specs::Charge::weighed))]
pub fn weigh(p: Pulse) -> Option<i32>
    ensures { result ≡ weighed p }
{
    if !is_good(p) {
        return None;
    }
    Some(net(&p.points[..p.number as usize]))
}
