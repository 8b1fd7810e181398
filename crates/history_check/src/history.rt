//! The verdict on a history of a trace.

ghost use Rattle.std.specs.Prelude.{◌≡◌, ◌<◌, ◌^◌, ◌∷◌, ◌++◌, [], true, false, ℕ, Some, None, IfOk, IfSome, IfNone, length, All};
ghost use Rattle.pager_model.specs.declared.entry.Numbered.{Numbered as NumberedItem};
ghost use Rattle.pager_model.specs.Legal.{entries_in};
ghost use Rattle.pager_model.specs.Settings.{Given};
ghost use Rattle.pager_model.specs.Showing.{Shows};
ghost use Rattle.followed_space.specs.Follows.{AnswersLine};
ghost use Rattle.history_check.specs.Shown.{AllAtRest};
ghost use Rattle.history_check.specs.Standing.{StandsAfter};
ghost use Rattle.history_check.specs.Verdicts.{IsFirstBad, IsVerdict, told_setting};

use crate::checker::Checker;
use crate::shows::shows_all_calls;
use crate::verdict::Verdict;
use pager_model::{NoMemory, Numbered, Trace};
use std::alloc::Global;

/// The place of the first entry of a history that may not follow those before it. The checker follows those before it, or all.
fn first_bad(checker: &mut Checker, history: &[Numbered]) -> Result<Option<u64>, NoMemory>
    requires lines { All (λ (n : NumberedItem). AnswersLine n.entry.what) history.now }
    requires few { length history.now < 2 ^ 45 }
    requires stands { (g : Given) × StandsAfter g [] checker.old }
    ensures bad { IfOk result (λ found. (g : Given) → StandsAfter g [] checker.old → IfSome found (IsFirstBad g (entries_in history.now))) }
    ensures good { IfOk result (λ found. (g : Given) → StandsAfter g [] checker.old → IfNone found (StandsAfter g (entries_in history.now) checker.new)) }
{
    for place in 0..history.len() {
        if !checker.judge(&history[place].entry)? {
            return Ok(Some(place as u64));
        }
    }
    Ok(None)
}

/// Whether a legal history shows the trace: the answers are its calls, each call and turn has ended, and the daemon made its turns.
fn shows(checker: &Checker, trace: &Trace, history: &[Numbered]) -> bool
    requires stands { StandsAfter (told_setting trace.now) (entries_in history.now) checker.now }
    ensures shows { result ≡ true → Shows trace.now (entries_in history.now) }
    ensures other { result ≡ false → Shows trace.now (entries_in history.now) → ⊥ }
{
    checker.is_at_rest(trace) && shows_all_calls(trace, history)
}

/// What is to be said of a history of a trace: whether it is legal over stores that tell their copies and never failed before, and shows the trace.
pub fn check(alloc: Global, trace: &Trace, history: &[Numbered]) -> Result<Verdict, NoMemory>
    requires lines { All (λ (n : NumberedItem). AnswersLine n.entry.what) history.now }
    requires few { length history.now < 2 ^ 45 }
    ensures { IfOk result (IsVerdict trace.now (entries_in history.now)) }
{
    let mut checker = Checker::create(alloc, trace)?;
    if let Some(entry) = first_bad(&mut checker, history)? {
        return Ok(Verdict::No { entry });
    }
    if !shows(&checker, trace, history) {
        let entry = history.len() as u64;
        return Ok(Verdict::No { entry });
    }
    Ok(Verdict::Yes)
}
