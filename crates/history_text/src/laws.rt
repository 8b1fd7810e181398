//! Laws of a history's text and its refusals, which have no code.

ghost use Rattle.std.specs.Prelude.{◌≡◌, ◌++◌, List, ℕ, Some, length};
ghost use Rattle.history_text.specs.declared.fault.HistoryFault.{HistoryFault as Fault};
ghost use Rattle.history_text.specs.HistoryText.{IsHistoryText};
ghost use Rattle.history_text.specs.Refusals.{IsRefused, end_in};
ghost use Rattle.pager_model.specs.declared.entry.Numbered.{Numbered};
ghost use Rattle.pager_model.specs.Scripts.{Script};
ghost use Rattle.pager_model.specs.TraceText.{HasText, text_of};
ghost use Rattle.trace_reader.specs.Refusals.{lines_of};

/// A text has one refusal.
pub fn one_refusal()
    ensures { (script : Script) (text : List ℕ) (one other : Fault) → IsRefused script text one → IsRefused script text other → one ≡ other }
{}

/// The text of a history isn't refused.
pub fn a_historys_text_is_not_refused()
    ensures { (script : Script) (text : List ℕ) (history : List Numbered) (fault : Fault) → IsHistoryText script text history
        → IsRefused script text fault → ⊥ }
{}

/// No text is of two histories of a trace.
pub fn one_history()
    ensures { (script : Script) (text : List ℕ) (a b : List Numbered) → HasText script → IsHistoryText script text a
        → IsHistoryText script text b → a ≡ b }
{}

/// Where a trace's text stands before other bytes, its line `end` is the first one.
pub fn a_traces_text_is_cut_at_its_end()
    ensures { (script : Script) (more : List ℕ) → HasText script → end_in (lines_of (text_of script ++ more)) ≡ Some (length (text_of script)) }
{}
