//! The first of several processors that can step.

ghost use Rattle.std.specs.Prelude.{◌<◌, length};
ghost use Rattle.std.specs.List.{AllByRecursion};
ghost use Rattle.replay_core.specs.Schedules.{IsStuck, FirstStepped};

use pager_core::{Advance, Machine};
use store_core::Store;

/// Advances the actors, in order, until one has made an entry. One of them can.
pub fn step_first<S: Store + Send + Drop>(machine: &mut Machine<'_, S>, actors: &[u32])
    requires known { AllByRecursion (λ c. c < length machine.old.jobs) actors.now }
    requires some { AllByRecursion (IsStuck machine.old) actors.now → ⊥ }
    ensures { FirstStepped machine.old machine.new actors.now }
{
    for actor in actors {
        if let Advance::Stepped = machine.advance(*actor) {
            return;
        }
    }
}
