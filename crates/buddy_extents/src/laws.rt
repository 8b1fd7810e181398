//! Laws over the choice and over sets of frames: each is a clause of a function that does nothing.

ghost use Rattle.std.specs.Prelude.{◌≡◌, ℕ, ◌+◌, ◌%◌, ◌^◌, ◌<◌, ◌≤◌, ◌⊎◌, ◌↔◌, Bool, true, false, List, length, slice_index_or, Some, None, count_by};
ghost use Rattle.pager_model.specs.Extents.{IsExtent};
ghost use Rattle.pager_model.specs.FreeBlocks.{choice, run_free, with_range};

/// The choice for a size is an extent of it whose frames are all free; and there is no choice exactly where there is no such
/// extent.
pub fn choice_is_a_free_extent()
    ensures extent { (free : List Bool) (size first : ℕ) → choice free size ≡ Some first → IsExtent size first }
    ensures free { (free : List Bool) (size first : ℕ) → choice free size ≡ Some first
        → run_free free first (8 ^ size) ≡ true }
    ensures within { (free : List Bool) (size first : ℕ) → choice free size ≡ Some first
        → first + 8 ^ size ≤ length free }
    ensures none { (free : List Bool) (size : ℕ) → size ≤ 3
        → (choice free size ≡ None) ↔ ((first : ℕ) → first % 8 ^ size ≡ 0 → run_free free first (8 ^ size) ≡ false) }
{}

/// A run is free exactly where each of its frames is.
pub fn free_runs_are_free_frames()
    ensures { (free : List Bool) (first count : ℕ) → (run_free free first count ≡ true)
        ↔ ((frame : ℕ) → first ≤ frame → frame < first + count → slice_index_or free frame false ≡ true) }
{}

/// What a range of frames is after it went into a set or out of it: its frames are as set, the others as before, the number of
/// free frames is larger or smaller by the range, and the opposite change undoes it.
pub fn ranges_go_in_and_out()
    ensures length { (free : List Bool) (first count : ℕ) (value : Bool) → first + count ≤ length free
        → length (with_range free first count value) ≡ length free }
    ensures inside { (free : List Bool) (first count : ℕ) (value : Bool) → first + count ≤ length free
        → (frame : ℕ) → first ≤ frame → frame < first + count
        → slice_index_or (with_range free first count value) frame false ≡ value }
    ensures outside { (free : List Bool) (first count : ℕ) (value : Bool) → first + count ≤ length free
        → (frame : ℕ) → (frame < first) ⊎ (first + count ≤ frame)
        → slice_index_or (with_range free first count value) frame false ≡ slice_index_or free frame false }
    ensures taken_count { (free : List Bool) (first count : ℕ) → first ≤ length free → run_free free first count ≡ true
        → count_by (λ is_free. is_free) (with_range free first count false) + count ≡ count_by (λ is_free. is_free) free }
    ensures given_count { (free : List Bool) (first count : ℕ) → first + count ≤ length free
        → ((frame : ℕ) → first ≤ frame → frame < first + count → slice_index_or free frame false ≡ false)
        → count_by (λ is_free. is_free) (with_range free first count true) ≡ count_by (λ is_free. is_free) free + count }
    ensures given_back { (free : List Bool) (first count : ℕ) → first ≤ length free → run_free free first count ≡ true
        → with_range (with_range free first count false) first count true ≡ free }
    ensures taken_back { (free : List Bool) (first count : ℕ) → first + count ≤ length free
        → ((frame : ℕ) → first ≤ frame → frame < first + count → slice_index_or free frame false ≡ false)
        → with_range (with_range free first count true) first count false ≡ free }
{}
