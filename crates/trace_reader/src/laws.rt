//! Laws of the grammar and its refusals, which have no code.
ghost use Rattle.std.specs.Prelude.{◌≡◌, ℕ, List, None};
ghost use Rattle.pager_model.specs.Scripts.{Script};
ghost use Rattle.pager_model.specs.TraceText.{text_of, HasText, IsTextOf};
ghost use Rattle.trace_reader.specs.Refusals.{refusal_of};

/// The text of a trace isn't refused.
pub fn a_traces_text_is_not_refused()
    ensures { (script : Script) → HasText script → refusal_of (text_of script) ≡ None }
{}

/// A text that isn't refused is some trace's.
pub fn what_is_not_refused_is_a_traces()
    ensures { (text : List ℕ) → refusal_of text ≡ None → (script : Script) × IsTextOf text script }
{}

/// No text is of two traces.
pub fn one_text()
    ensures { (a b : Script) → HasText a → HasText b → text_of a ≡ text_of b → a ≡ b }
{}
