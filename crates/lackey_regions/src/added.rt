//! Calls that are added to those of a line.

ghost use Rattle.std.specs.Prelude.{◌≡◌, [], IfErr, OnOk};
ghost use Rattle.pager_model.specs.TraceText.{IsCall};
ghost use Rattle.lackey_regions.specs.LineCalls.{Adds, accesses_of};

use crate::refusal::Refusal;
use pager_model::{Call, Line};

/// Adds a call of the only processor on the only space.
#[tactic(auto, using(crate::proofs::AddedCalls::adds_call))]
pub fn add(calls: &mut Vec<Line>, call: Call) -> Result<(), Refusal>
    requires { IsCall 1 call }
    ensures adds { OnOk result (Adds calls.old.items calls.new.items (accesses_of call)) }
    ensures no_memory { IfErr result (λ refusal. refusal ≡ Refusal.NoMemory) }
{
    calls.push(Line { processor: 0, call })?;
    Ok(())
}
