//! What takes the entries of a history, one after another.

ghost use Rattle.std.specs.Prelude.{ℕ, ◌≡◌, ◌+◌, ◌≤◌, List, [], ◌∷◌, ◌++◌};
ghost use Rattle.pager_model.specs.declared.entry.Entry.{Entry as Made};
ghost use Rattle.pager_model.specs.Legal.{MayFollow};
ghost use Rattle.pager_model.specs.Settings.{Given};
ghost use Rattle.flight_core.specs.Taken.{AnswersCall};

use pager_model::Entry;

/// Takes the entries of a history, one after another. What a log stands for is a relation: a log that keeps its entries stands for one history, a
/// log that counts them for each history with these counts, and a log of the lists of some parts for each history that has these lists.
pub trait Log {
    /// It stands for this history of a setting.
    ghost stands: { Self → Given → List Made → Type 0 };

    /// It is one that takes such an entry.
    ghost takes: { Self → Made → Type 0 };

    /// It has become this since it was that, by entries that it took.
    ghost grown: { Self → Self → Type 0 };

    /// How many entries it has room for.
    ghost room: { Self → ℕ };

    /// Takes an entry that may come next; where it is an answer, it is of a call that a line of a trace may hold. Then it stands for each history
    /// that it stood for and that the entry may follow, with this entry behind it.
    fn add(&mut self, entry: &Entry)
        requires may { (g : Given) × (h : List Made) × stands self.old g h × MayFollow g h entry.now }
        requires line { AnswersCall entry.now.what }
        requires takes { takes self.old entry.now }
        requires room { 1 ≤ room self.old }
        ensures stands { (g : Given) (h : List Made) → stands self.old g h → MayFollow g h entry.now → stands self.new g (h ++ entry.now ∷ []) }
        ensures takes { (e : Made) → takes self.old e → takes self.new e }
        ensures grown { (from : Self) → grown from self.old → grown from self.new }
        ensures room { room self.new + 1 ≡ room self.old };
}
