//! Laws of verdicts, which have no code.

ghost use Rattle.std.specs.Prelude.{◌≡◌, List};
ghost use Rattle.history_check.specs.Verdicts.{IsVerdict};
ghost use Rattle.history_check.specs.declared.verdict.Verdict.{Verdict as Said};
ghost use Rattle.pager_model.specs.declared.entry.Entry.{Entry};
ghost use Rattle.pager_model.specs.Scripts.{Script};

/// A history has one verdict.
pub fn a_history_has_one_verdict()
    ensures { (script : Script) (history : List Entry) (one other : Said) → IsVerdict script history one → IsVerdict script history other → one ≡ other }
{}
