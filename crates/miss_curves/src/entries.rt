//! What an entry tells the stacks, and how its space is followed.

ghost use Rattle.std.specs.Prelude.{◌≡◌, ℕ, ◌+◌, ◌-◌, ◌<◌, ◌≤◌, ◌^◌, [], ◌∷◌, ◌++◌, ◌==◌, ◌||◌, not, List, Some, length, IfSome};
ghost use Rattle.std.specs.List.{list_any};
ghost use Rattle.pager_model.specs.declared.entry.Entry.{Entry as Item};
ghost use Rattle.pager_model.specs.Extents.{extent_start};
ghost use Rattle.pager_model.specs.Legal.{space_at};
ghost use Rattle.pager_model.specs.Settings.{Given};
ghost use Rattle.pager_model.specs.SizeSets.{SizeSet};
ghost use Rattle.pager_model.specs.SpaceStates.{SpaceState, space_after, tile_at};
ghost use Rattle.pager_model.specs.Tiles.{is_tile_in};
ghost use Rattle.followed_space.specs.Changed.{IsChange};
ghost use Rattle.followed_space.specs.Follows.{AnswersLine, Follows, IsNext};
ghost use Rattle.lru_stack.specs.Followers.{page_used};
ghost use Rattle.miss_curves.specs.Curves.{base_alone};
ghost use Rattle.miss_curves.specs.Histories.{Comes, KeepsUp, Told, effect, use_of};
ghost use Rattle.miss_curves.specs.Rows.{StandAfter};
ghost use Rattle.tiles.specs.Beside.{OthersSame};
ghost use Rattle.tiles.specs.Changes.{AreChanges};
ghost use Rattle.tiles.specs.Resident.{Resident, frames_in, mapping_at};
ghost use Rattle.tiles.specs.Sized.{KeepsOutsideIn};
ghost use Rattle.tiles.specs.Touched.{is_touched};

use crate::stacks::Stacks;
use followed_space::{Changed, FollowedSpace};
use lru_stack::Use;
use pager_model::{Call, Entry, PageRange, Reply, Sizes, Tile, What, page_of};
use tiles::{Changes, TileList};

/// What was used of a page, if one was: by the sizes of the run, and by base pages alone.
#[derive(Clone, Copy)]
struct Uses {
    used: Option<Use>,
    used_base: Option<Use>,
    sizes: Sizes,
}

/// Base pages alone.
fn base_alone() -> Sizes
    ensures { result ≡ base_alone }
{
    Sizes::of(false, false, false)
}

/// The page that an entry used, if it is an answer of processor 0 with a size.
fn used_page(entry: &Entry) -> Option<u32>
    requires { AnswersLine entry.now.what }
    ensures { result ≡ page_used entry.now.processor entry.now.what }
{
    let What::Answer { call, answered, .. } = entry.what else {
        return None;
    };
    if entry.processor != 0 || answered.size.is_none() {
        return None;
    }
    match (call, answered.reply) {
        (Call::Load { address, .. }, Reply::Value(_))
        | (Call::Store { address, .. }, Reply::Done) => Some(page_of(address)),
        _ => None,
    }
}

/// Whether a tile begins in a range.
fn begins_in(tile: &Tile, range: PageRange) -> bool
    ensures { result ≡ is_touched range tile.now.extent.first }
{
    let first = tile.extent.first;
    range.first <= first && first - range.first < range.length
}

/// Whether a tile is one still where these, by all sizes, went. It is where none of them had its first page, and else it is asked about.
fn stays_at(space: &FollowedSpace, gone: &TileList, tile: &Tile, sizes: Sizes) -> bool
    ensures { result ≡ (not (list_any (λ t. extent_start t.extent.size tile.now.extent.first == t.extent.first) gone.now)
        || is_tile_in sizes (mapping_at space.now.pages) tile.now) }
{
    !gone.has_page(tile.extent.first) || space.is_tile(tile, sizes)
}

/// Whether a base page is one still where this page alone changed.
fn base_stays_at(space: &FollowedSpace, page: u32, tile: &Tile) -> bool
    ensures { result ≡ (not (tile.now.extent.first == page) || is_tile_in base_alone (mapping_at space.now.pages) tile.now) }
{
    tile.extent.first != page || space.is_tile(tile, base_alone())
}

/// Whether a tile is one still where pages of a range alone changed.
fn stays_in(space: &FollowedSpace, range: PageRange, tile: &Tile, sizes: Sizes) -> bool
    ensures { result ≡ (not (is_touched range tile.now.extent.first) || is_tile_in sizes (mapping_at space.now.pages) tile.now) }
{
    !begins_in(tile, range) || space.is_tile(tile, sizes)
}

/// Tells of an entry that changed one page. Where no tile by all sizes went, nothing is asked about; else only the tiles that begin in one that
/// went are, and that page's base page.
fn tell_page(
    stacks: &mut Stacks,
    space: &FollowedSpace,
    entry: &Entry,
    page: u32,
    changes: &Changes,
    uses: &Uses,
)
    requires known { IfSome entry.now.space (λ s. s < length stacks.old.tiles) }
    requires room { stacks.old.entries < 2 ^ 64 - 1 }
    ensures spaces { length stacks.new.tiles ≡ length stacks.old.tiles }
    ensures places { stacks.new.places ≡ stacks.old.places }
    ensures entries { stacks.new.entries ≤ stacks.old.entries + 1 }
    ensures stands { (g : Given) (history : List Item) (old : Resident) → OthersSame page (mapping_at old) (mapping_at space.now.pages)
        → AreChanges old space.now.pages changes.now → Told g history (effect entry.now old space.now.pages uses.now)
        → StandAfter g stacks.old history → StandAfter g stacks.new (history ++ entry.now ∷ []) }
{
    if !changes.takes_any() {
        stacks.follow_same(entry, uses.used, uses.used_base);
        return;
    }
    let gone = changes.gone();
    let sizes = uses.sizes;
    stacks.follow(
        entry,
        &|tile: &Tile| stays_at(space, &gone, tile, sizes),
        uses.used,
        &|tile: &Tile| base_stays_at(space, page, tile),
        uses.used_base,
    );
}

/// Tells of an entry that changed pages of a range alone. Only tiles that begin there are asked about.
fn tell_range(
    stacks: &mut Stacks,
    space: &FollowedSpace,
    entry: &Entry,
    range: PageRange,
    uses: &Uses,
)
    requires known { IfSome entry.now.space (λ s. s < length stacks.old.tiles) }
    requires room { stacks.old.entries < 2 ^ 64 - 1 }
    ensures spaces { length stacks.new.tiles ≡ length stacks.old.tiles }
    ensures places { stacks.new.places ≡ stacks.old.places }
    ensures entries { stacks.new.entries ≤ stacks.old.entries + 1 }
    ensures stands { (g : Given) (history : List Item) (old : Resident)
        → ((z : SizeSet) → KeepsOutsideIn z range (mapping_at old) (mapping_at space.now.pages))
        → Told g history (effect entry.now old space.now.pages uses.now)
        → StandAfter g stacks.old history → StandAfter g stacks.new (history ++ entry.now ∷ []) }
{
    let sizes = uses.sizes;
    stacks.follow(
        entry,
        &|tile: &Tile| stays_in(space, range, tile, sizes),
        uses.used,
        &|tile: &Tile| stays_in(space, range, tile, base_alone()),
        uses.used_base,
    );
}

/// Tells of an entry what it changed of its space's pages.
fn tell(stacks: &mut Stacks, space: &FollowedSpace, entry: &Entry, changed: &Changed, uses: &Uses)
    requires known { IfSome entry.now.space (λ s. s < length stacks.old.tiles) }
    requires room { stacks.old.entries < 2 ^ 64 - 1 }
    ensures spaces { length stacks.new.tiles ≡ length stacks.old.tiles }
    ensures places { stacks.new.places ≡ stacks.old.places }
    ensures entries { stacks.new.entries ≤ stacks.old.entries + 1 }
    ensures stands { (g : Given) (history : List Item) (old : Resident) → IsChange old space.now.pages changed.now
        → Told g history (effect entry.now old space.now.pages uses.now)
        → StandAfter g stacks.old history → StandAfter g stacks.new (history ++ entry.now ∷ []) }
{
    match changed {
        Changed::Nothing => stacks.follow_same(entry, uses.used, uses.used_base),
        Changed::Page { page, changes } => tell_page(stacks, space, entry, *page, changes, uses),
        Changed::Range(range) => tell_range(stacks, space, entry, *range, uses),
    }
}

/// What a use was, where a page was used: its tile before it and after it.
fn use_of(before: Option<Tile>, after: Option<Tile>) -> Option<Use>
    ensures { result ≡ use_of before after }
{
    match after {
        Some(after) => Some(Use { before, after }),
        None => None,
    }
}

/// The tile of a page by some sizes, if one was used.
fn tile_at(space: &FollowedSpace, page: Option<u32>, sizes: Sizes) -> Option<Tile>
    ensures { result ≡ tile_at sizes (mapping_at space.now.pages) page }
{
    match page {
        Some(page) => space.tile_of(page, sizes),
        None => None,
    }
}

/// Follows an entry of a space, and tells the stacks of it.
fn follow_entry(stacks: &mut Stacks, space: &mut FollowedSpace, entry: &Entry, sizes: Sizes)
    requires next { (st : SpaceState) × IsNext space.old st entry.now }
    requires known { IfSome entry.now.space (λ s. s < length stacks.old.tiles) }
    requires room { stacks.old.entries < 2 ^ 64 - 1 }
    ensures spaces { length stacks.new.tiles ≡ length stacks.old.tiles }
    ensures places { stacks.new.places ≡ stacks.old.places }
    ensures entries { stacks.new.entries ≤ stacks.old.entries + 1 }
    ensures frames { frames_in space.new.pages ≡ frames_in space.old.pages }
    ensures follows { (st : SpaceState) → IsNext space.old st entry.now → Follows space.new (space_after st entry.now) }
    ensures stands { (g : Given) (history : List Item) → g.sizes ≡ sizes
        → ((s : ℕ) → entry.now.space ≡ Some s → IsNext space.old (space_at g history s) entry.now)
        → StandAfter g stacks.old history → StandAfter g stacks.new (history ++ entry.now ∷ []) }
{
    let base = base_alone();
    let page = used_page(entry);
    let before = tile_at(space, page, sizes);
    let base_before = tile_at(space, page, base);
    let changed = space.follow(entry);
    let after = tile_at(space, page, sizes);
    let base_after = tile_at(space, page, base);
    let uses = Uses {
        used: use_of(before, after),
        used_base: use_of(base_before, base_after),
        sizes,
    };
    tell(stacks, space, entry, &changed, &uses);
}

/// Follows an entry in its space, if it has one.
pub fn follow_next(stacks: &mut Stacks, spaces: &mut [FollowedSpace], entry: &Entry, sizes: Sizes)
    requires next { (g : Given) × (history : List Item) × KeepsUp sizes g stacks.old spaces.old history × Comes g history entry.now }
    requires room { stacks.old.entries < 2 ^ 64 - 1 }
    ensures places { stacks.new.places ≡ stacks.old.places }
    ensures entries { stacks.new.entries ≤ stacks.old.entries + 1 }
    ensures keeps { (g : Given) (history : List Item) → KeepsUp sizes g stacks.old spaces.old history → Comes g history entry.now
        → KeepsUp sizes g stacks.new spaces.new (history ++ entry.now ∷ []) }
{
    match entry.space {
        Some(space) => {
            let space = space as usize;
            follow_entry(stacks, &mut spaces[space], entry, sizes)
        }
        None => stacks.follow_same(entry, None, None),
    }
}
