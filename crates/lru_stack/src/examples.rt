//! Rows of places, and what a use makes of them.

ghost use Rattle.std.specs.Prelude.{◌≡◌, [], ◌∷◌, None};
ghost use Rattle.lru_stack.specs.Examples.{at, after_use};

/// Without a hole the tiles before the one that is used move down to its place.
pub fn a_use_moves_down_to_its_place()
    ensures { after_use 1 (at 3 ∷ at 2 ∷ at 1 ∷ at 0 ∷ []) ≡ at 1 ∷ at 3 ∷ at 2 ∷ at 0 ∷ [] }
{}

/// Behind a hole they stay, and the place of the tile that is used becomes a hole.
pub fn a_use_moves_down_to_a_hole()
    ensures { after_use 1 (at 3 ∷ None ∷ at 2 ∷ at 1 ∷ at 0 ∷ []) ≡ at 1 ∷ at 3 ∷ at 2 ∷ None ∷ at 0 ∷ [] }
{}

/// A tile that stood nowhere takes the hole, and in a full row the last one falls off.
pub fn a_new_tile_fills_a_hole()
    ensures hole { after_use 7 (at 3 ∷ None ∷ at 2 ∷ []) ≡ at 7 ∷ at 3 ∷ at 2 ∷ [] }
    ensures full { after_use 7 (at 3 ∷ at 2 ∷ at 1 ∷ []) ≡ at 7 ∷ at 3 ∷ at 2 ∷ [] }
{}
