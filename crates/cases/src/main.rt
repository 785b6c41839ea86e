// A script of cases (document 01, "Other cases a program runs"), played through the calls on a box. Each line of the script is
// copied, and what its step gave stands behind two spaces below it.
#![tactic(auto)]

mod input;
mod numbers;
mod player;
mod step;
mod told;
mod within;

use player::Player;
use std::io;

// A script has at most 65,536 bytes: what stands behind them is not read. They stand in fixed memory.
fn main(rt: HostRuntime) -> io::Result<()> {
    let mut script = [0; 65536];
    let n = input::read_full(&rt, &mut script)?;
    let mut player = Player::new();
    for line in script[..n].split_inclusive(|c| *c == b'\n') {
        player.play(&rt, line.strip_suffix(b"\n").unwrap_or(line))?;
    }
    Ok(())
}
