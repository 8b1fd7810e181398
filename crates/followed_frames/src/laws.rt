//! Laws of the frames' state, which have no code.

ghost use Rattle.std.specs.Prelude.{◌≡◌, ◌↔◌, ℕ, true};
ghost use Rattle.pager_laws.specs.Laid.{IsSound};
ghost use Rattle.pager_model.specs.FrameStates.{FrameState, IsFull, is_short};

/// No frame can be had exactly where there is no free frame and no unused place.
pub fn a_full_state_has_nothing_unused()
    ensures { (frames processors : ℕ) (st : FrameState) → IsSound frames processors st → (is_short st 1 ≡ true) ↔ IsFull st }
{}
