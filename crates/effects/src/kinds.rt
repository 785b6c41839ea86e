// The judgement of a command with a right check and good values, and what it does (document 01, "The machine").
ghost use Rattle.std.specs.Prelude.{◌≡◌, ◌<◌};
ghost use Rattle.commands.specs.Commands.{Command.init, Command.update, Command.single};
ghost use Rattle.model.specs.Effects.{accept};
ghost use Rattle.model.specs.Arrival.{decided};
ghost use Rattle.decided.specs.ByValue.{by_value};
ghost use Rattle.effects.specs.Deciding.{late};

use super::{cores, single};
use commands::idents::Ident;
use commands::refusals::DONE;
use commands::{Init, Setting, Single};
use decided::Decided;
use record::Box;

pub fn on_init(b: &Box, v: Init) -> Decided
    ensures { result ≡ by_value (late b.now.profile b.now.clock b.now.core (init v)) }
{
    match judgement::judge_init(b.profile, v) {
        Ok(()) => decided::tell(b.clock, Ident::Init.number(), DONE, cores::running(v)),
        Err(refusal) => decided::drop_frame(
            b.clock,
            Ident::Init.number(),
            refusal.number(),
            &b.core,
        ),
    }
}

pub fn on_update(b: &Box, entries: [Setting; 8]) -> Decided
    ensures { result ≡ by_value (late b.now.profile b.now.clock b.now.core (update 0 entries)) }
{
    let settings = judgement::place(b.core.run.list.stim, entries);
    match judgement::judge_update(b.profile, b.core, settings) {
        Ok(()) => decided::tell(
            b.clock,
            Ident::Update.number(),
            DONE,
            cores::wait(&b.core, settings),
        ),
        Err(refusal) => decided::drop_frame(
            b.clock,
            Ident::Update.number(),
            refusal.number(),
            &b.core,
        ),
    }
}

fn accept_single(b: &Box, v: Single) -> Decided
    requires { v.channel < 8 }
    ensures { result ≡ by_value (decided b.now.clock 3 0 (accept b.now.clock b.now.core (single v))) }
{
    let held = cores::hold(&b.core, v.channel);
    if schedule::is_felt(v.width, v.current) {
        return single::tell_pulse(b.clock, held, v);
    }
    decided::tell(b.clock, Ident::Single.number(), DONE, held)
}

pub fn on_single(b: &Box, v: Single) -> Decided
    requires { v.channel < 8 }
    ensures { result ≡ by_value (late b.now.profile b.now.clock b.now.core (single v)) }
{
    match judgement::judge_single(b.profile, b.core, v) {
        Ok(()) => accept_single(b, v),
        Err(refusal) => decided::drop_frame(
            b.clock,
            Ident::Single.number(),
            refusal.number(),
            &b.core,
        ),
    }
}
