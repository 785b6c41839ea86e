// The net charge of a pulse.
ghost use Rattle.std.specs.Prelude.{◌≡◌};
ghost use Rattle.charge.specs.Charge.{weighed};
ghost use Rattle.packet_writers3.specs.Weighing.{weighed_as};

use charge::Pulse;
use commands::refusals::{DONE, Refusal};

#[repr(C)]
#[derive(Clone, Copy)]
pub struct Weighed {
    pub charge: i32,
    pub answer: u32,
}

#[unsafe(no_mangle)]
pub extern "C" fn yarrowbell_rehamove3_charge(pulse: Pulse) -> Weighed
    ensures { result ≡ weighed_as (weighed pulse) }
{
    match charge::weigh(pulse) {
        Some(charge) => Weighed {
            charge,
            answer: u32::from(DONE),
        },
        None => Weighed {
            charge: 0,
            answer: u32::from(Refusal::NotGood.number()),
        },
    }
}
