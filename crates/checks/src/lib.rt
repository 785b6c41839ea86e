// The Check of a command (document 01, "The four frames"): the sum of its variables, reduced as it goes.
#![tactic(auto)]

ghost use Rattle.std.specs.Prelude.{[], ◌∷◌, ◌≡◌, ◌+◌, ◌%◌, length};
ghost use Rattle.commands.specs.Commands.{Command.init, Command.update, Command.single, check_of};
ghost use Rattle.checks.specs.Reduced.{reduced};

use commands::{Init, Setting, Single};

// The remainder by 32 with one variable more.
fn plus(remainder: u8, variable: u16) -> u8
    ensures { result ≡ (remainder + variable) % 32 }
{
    ((u16::from(remainder) + variable % 32) % 32) as u8
}

// The remainder by 32 with more variables.
fn remainder_of(remainder: u8, variables: &[u16]) -> u8
    ensures { result ≡ reduced 32 remainder variables.now }
{
    variables
        .iter()
        .fold(remainder, |so_far, variable| plus(so_far, *variable))
}

// The remainder by 32 holds that by 8.
pub fn check_init(v: Init) -> u64
    ensures { result ≡ check_of (init v) }
{
    let variables = [
        v.factor.into(),
        v.stim.into(),
        v.lf.into(),
        v.group.into(),
        v.main,
    ];
    u64::from(remainder_of(0, &variables) % 8)
}

// The remainder by 32 with one entry more, of an Update or a Single: its lead, Mode or Channel_Number, then Width and Current.
pub fn plus_entry(remainder: u8, lead: u8, width: u16, current: u8) -> u8
    ensures { result ≡ reduced 32 remainder (lead ∷ width ∷ current ∷ []) }
{
    remainder_of(remainder, &[lead.into(), width, current.into()])
}

// The Check of an Update of these channels.
pub fn check_update(settings: &[Setting]) -> u64
    ensures { result ≡ check_of (update (length settings.now) settings.now) }
{
    let plus_setting = |so_far, v: &Setting| plus_entry(so_far, v.mode, v.width, v.current);
    u64::from(settings.iter().fold(0, plus_setting))
}

pub fn check_single(v: Single) -> u64
    ensures { result ≡ check_of (single v) }
{
    u64::from(plus_entry(0, v.channel, v.width, v.current))
}
