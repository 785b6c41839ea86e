// What an accepted command leaves of the core.
ghost use Rattle.std.specs.Prelude.{cond, ◌≡◌, ltb};
ghost use Rattle.model.specs.State.{still};
ghost use Rattle.model.specs.Effects.{with_run, fed, started, waited};

use commands::{Init, Setting};
use model::{Core, Run};

// An accepted Init.
pub fn running(list: Init) -> Core
    ensures { result ≡ record { holda = 15; holdb = 15; state = 1; run = started list } }
{
    Core {
        holda: model::HOLD,
        holdb: model::HOLD,
        state: model::RUNNING,
        run: Run {
            list,
            ..model::STILL
        },
    }
}

// An accepted Stop.
pub fn idle() -> Core
    ensures { result ≡ record { holda = 15; holdb = 15; state = 0; run = still } }
{
    Core {
        holda: model::HOLD,
        holdb: model::HOLD,
        state: model::IDLE,
        run: model::STILL,
    }
}

// An accepted Update waits.
pub fn wait(m: &Core, waiting: [Setting; 8]) -> Core
    ensures { result ≡ with_run m.now (waited m.now.run waiting) }
{
    Core {
        run: Run {
            waits: 1,
            waiting,
            watch: 0,
            ..m.run
        },
        ..*m
    }
}

// An accepted Single sets its module's hold.
pub fn hold(m: &Core, channel: u8) -> Core
    ensures { result ≡ record { holda = cond (ltb channel 4) 15 m.now.holda; holdb = cond (ltb channel 4) m.now.holdb 15; state = m.now.state; run = fed m.now.run } }
{
    let fed = Core {
        run: Run { watch: 0, ..m.run },
        ..*m
    };
    if channel < model::CHANNELS {
        Core {
            holda: model::HOLD,
            ..fed
        }
    } else {
        Core {
            holdb: model::HOLD,
            ..fed
        }
    }
}
