//! Laws over the preferred size: each is a clause of a function that does nothing.

ghost use Rattle.std.specs.Prelude.{◌≡◌, ℕ, ◌<◌, ◌≤◌, Bool, false};
ghost use Rattle.pager_model.specs.declared.entry.Want.{Want};
ghost use Rattle.pager_model.specs.PreferredSize.{preferred_size};
ghost use Rattle.size_policy.specs.Suits.{Suits};

/// The extent of the preferred size round a page lies within the want, has no more pages than its cap, and meets nothing, where
/// the page alone does; and no larger extent does.
pub fn preferred_is_the_largest()
    ensures suits { (test : ℕ → ℕ → Bool) (page : ℕ) (want : Want) → want.low ≤ page → page < want.high
        → 1 ≤ want.cap → test 0 page ≡ false → Suits test page want (preferred_size test page want) }
    ensures largest { (test : ℕ → ℕ → Bool) (page : ℕ) (want : Want) (k : ℕ) → k ≤ 3
        → Suits test page want k → k ≤ preferred_size test page want }
{}
