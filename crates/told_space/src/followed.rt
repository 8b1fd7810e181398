//! What becomes of what is kept of a space with its next entry.

ghost use Rattle.std.specs.Prelude.{◌≡◌, ℕ, true, false, length, option_map, IfOk, OnOk};
ghost use Rattle.followed_space.specs.Changed.{IsChange};
ghost use Rattle.followed_space.specs.Follows.{Follows};
ghost use Rattle.pager_model.specs.declared.tile.Tile.{Tile as Item};
ghost use Rattle.pager_model.specs.Laws.{KeepsCopies};
ghost use Rattle.pager_model.specs.SpaceStates.{SpaceAllows, SpaceState, highest_after, space_after};
ghost use Rattle.tiles.specs.Resident.{frames_in};
ghost use Rattle.told_space.specs.Told.{HasSize, IsNextButSize, IsToldNext, Stands, kept_of};

use crate::next::Next;
use crate::space::ToldSpace;
use crate::translations::{keep_tiles, touch, used_tile};
use crate::words::follow_words;
use followed_space::{Changed, FollowedSpace};
use pager_model::{Entry, NoMemory, Size, Tile, What};

impl ToldSpace {
    /// Follows the next entry of the space, which it allows but for an answer's size, and tells whether that size is right: it is that of the tile of the
    /// answer's page, as it is after the entry. Where memory lacks, what is kept stands for nothing any more.
    pub fn follow(&mut self, entry: &Entry) -> Result<bool, NoMemory>
        requires next { (st : SpaceState) × IsToldNext (kept_of self.old) st entry.now }
        ensures frames { OnOk result (frames_in self.new.space.pages ≡ frames_in self.old.space.pages) }
        ensures images { OnOk result (length self.new.images ≡ length self.old.images) }
        ensures stands { OnOk result ((st : SpaceState) → IsToldNext (kept_of self.old) st entry.now → KeepsCopies (space_after st entry.now)
            → Stands (kept_of self.new) (space_after st entry.now)) }
        ensures allowed { IfOk result (λ right. right ≡ true → (st : SpaceState) → IsToldNext (kept_of self.old) st entry.now
            → SpaceAllows st entry.now) }
        ensures refused { IfOk result (λ right. right ≡ false → (st : SpaceState) → IsToldNext (kept_of self.old) st entry.now
            → SpaceAllows st entry.now → ⊥) }
    {
        follow_words(&mut self.words, &self.space, &entry.what)?;
        let changed = follow_pages(&mut self.space, entry);
        keep_tiles(&mut self.images, &self.space, &changed, self.sizes);
        let used = used_tile(&self.space, &entry.what, self.sizes);
        let right = has_size(&entry.what, &used);
        touch(&mut self.images, entry.processor, used);
        self.next = Next::after(entry.processor, &entry.what);
        self.highest = highest_after(self.highest, &entry.what);
        Ok(right)
    }
}

/// Follows the next entry in the pages of a space, which allows it but for an answer's size: that changes no page.
fn follow_pages(space: &mut FollowedSpace, entry: &Entry) -> Changed
    requires next { (st : SpaceState) × IsNextButSize space.old st entry.now }
    ensures frames { frames_in space.new.pages ≡ frames_in space.old.pages }
    ensures follows { (st : SpaceState) → IsNextButSize space.old st entry.now → Follows space.new (space_after st entry.now) }
    ensures changed { IsChange space.old.pages space.new.pages result }
{
    match entry.what {
        What::Answer { call, answered, .. } => space.answer(&call, answered.reply),
        _ => space.follow(entry),
    }
}

/// The highest count of faults after an entry.
fn highest_after(highest: u64, what: &What) -> u64
    ensures { result ≡ highest_after highest what.now }
{
    match *what {
        What::Failed { count, .. } => highest.max(count),
        _ => highest,
    }
}

/// Whether an answer tells the size of this tile, where its processor used one, and else none.
fn has_size(what: &What, used: &Option<Tile>) -> bool
    ensures has { result ≡ true → HasSize what.now used.now }
    ensures other { result ≡ false → HasSize what.now used.now → ⊥ }
{
    match what {
        What::Answer { answered, .. } => answered.size == size_of(used),
        _ => true,
    }
}

/// The size of a tile, where there is one.
fn size_of(tile: &Option<Tile>) -> Option<Size>
    ensures { result ≡ option_map (λ (t : Item). t.extent.size) tile.now }
{
    match tile {
        Some(tile) => Some(tile.extent.size),
        None => None,
    }
}
