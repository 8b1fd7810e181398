//! What a legal history gives whoever follows it.

ghost use Rattle.std.specs.Prelude.{◌≡◌, ◌<◌, ℕ, List, [], ◌∷◌, ◌++◌, Some};
ghost use Rattle.pager_model.specs.declared.call.Call.{Call as Asked};
ghost use Rattle.pager_model.specs.declared.entry.Entry.{Entry};
ghost use Rattle.pager_model.specs.declared.entry.What.TheVariants.{Answer};
ghost use Rattle.pager_model.specs.declared.reply.Answered.{Answered};
ghost use Rattle.pager_model.specs.Legal.{IsLegal, space_at};
ghost use Rattle.pager_model.specs.Scripts.{Script};
ghost use Rattle.pager_model.specs.Settings.{Given};
ghost use Rattle.pager_model.specs.Showing.{Shows, marks_of};
ghost use Rattle.pager_model.specs.TraceText.{HasText};
ghost use Rattle.tiles.specs.Resident.{frames_in};
ghost use Rattle.followed_space.specs.Follows.{AnswersLine, Followed, Follows, IsNext};

/// The next entry of a legal history may be followed by what follows its space so far, where there are as many frames and a call is one of a trace.
pub fn a_legal_history_may_be_followed()
    ensures { (g : Given) (history : List Entry) (e : Entry) (s : ℕ) (kept : Followed)
        → IsLegal g (history ++ e ∷ []) → e.space ≡ Some s → AnswersLine e.what → frames_in kept.pages ≡ g.frames → Follows kept (space_at g history s)
        → IsNext kept (space_at g history s) e }
{}

/// In a legal history of a trace each answer is of a processor that makes calls, and of a call that a line may hold: a daemon answers none.
pub fn a_history_of_a_trace_answers_its_lines()
    ensures lines { (script : Script) (g : Given) (before after : List Entry) (e : Entry)
        → HasText script → g.marks ≡ marks_of script → IsLegal g (before ++ e ∷ after) → Shows script (before ++ e ∷ after) → AnswersLine e.what }
    ensures processors { (script : Script) (g : Given) (before after : List Entry) (e : Entry) (number : ℕ) (call : Asked) (answered : Answered)
        → HasText script → g.marks ≡ marks_of script → IsLegal g (before ++ e ∷ after) → Shows script (before ++ e ∷ after)
        → e.what ≡ Answer number call answered → e.processor < script.processors }
{}
