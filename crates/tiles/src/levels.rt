//! What is said of the levels of a block's entries, read from the nodes of the tree of which they are rows.
//!
//! It is asked at the first of each eight pages: an entry of eight pages or more has such pages, and begins at one.

ghost use Rattle.std.specs.Prelude.{◌≡◌, ◌⊎◌, ℕ, ◌+◌, ◌*◌, ◌%◌, ◌<◌, ◌≤◌, None, slice_index};
ghost use Rattle.extent_tree.specs.Rows.{row, spot_of};
ghost use Rattle.tiles.specs.TableEntries.{entry_at, entry_size};

use crate::parts;
use extent_tree::{ExtentTree, Spot};
use pager_model::{Mapping, Size, Steps};
use std::sync::ledger::Ledger;

/// Writes eight levels from a place on.
fn set_eight(levels: &mut [u8; 64], first: usize, eight: &[u8; 8])
    requires { first + 8 ≤ 64 }
    ensures eight { (i : ℕ) → i < 8 → slice_index levels.new (first + i) ≡ slice_index eight.now i }
    ensures others { (i : ℕ) → (i < first ⊎ first + 8 ≤ i) → slice_index levels.new i ≡ slice_index levels.old i }
{
    for i in 0..8 {
        levels[first + i] = eight[i];
    }
}

/// What is said of the level of the entry at the first of each eight pages of an extent of 64, and of level 0 where there is none, from what is at
/// the extent. No larger entry has it.
fn levels_of_middle<L: Ledger>(
    tree: &ExtentTree<Mapping>,
    middle: Spot<Mapping>,
    said: &[u8; 4],
    steps: &mut Steps<L>,
) -> [u8; 8]
    requires { (page : ℕ) × (middle ≡ spot_of tree.now 1 page) }
    ensures levels { (page i : ℕ) → i < 8 → page % 64 ≡ 0 → middle ≡ spot_of tree.now 1 page → row tree.now 3 page ≡ None
        → slice_index result i ≡ slice_index said.now (entry_size (entry_at tree.now (page + 8 * i))) }
    ensures cost { steps.new ≤ steps.old + 1 }
{
    if middle.value().is_some() {
        return [said[2]; 8];
    }
    let parts = tree.eight(middle, steps);
    let mut levels = [said[0]; 8];
    for i in 0..8 {
        if parts::value_of(parts, i).is_some() {
            levels[i] = said[1];
        }
    }
    levels
}

/// What is said of the level of the entry at the first of each eight pages of a block, and of level 0 where there is none.
pub(crate) fn levels_of_block<L: Ledger>(
    tree: &ExtentTree<Mapping>,
    block: u32,
    said: &[u8; 4],
    steps: &mut Steps<L>,
) -> [u8; 64]
    requires { block < 2048 }
    ensures levels { (i : ℕ) → i < 64 → slice_index result i ≡ slice_index said.now (entry_size (entry_at tree.now (block * 512 + 8 * i))) }
    ensures cost { steps.new ≤ steps.old + 10 }
{
    let root = tree.at(Size::at_level(3), block * 512, steps);
    if root.value().is_some() {
        return [said[3]; 64];
    }
    let middles = tree.eight(root, steps);
    let mut levels = [said[0]; 64];
    for i in 0..8 {
        let eight = levels_of_middle(tree, parts::spot_at(middles, i), said, steps);
        set_eight(&mut levels, 8 * i, &eight);
    }
    levels
}
