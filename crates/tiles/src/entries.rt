//! How a change of some pages breaks the entry that maps them, and which entries join after it.
//!
//! The entries are the tiles of their pages before each change and after it. On the way there an extent round the changed pages may be eligible
//! that isn't an entry yet: those from one size on round one page are left out (`AreTilesBut`).

ghost use Rattle.std.specs.Prelude.{◌≡◌, ◌≢◌, ℕ, suc, ◌+◌, ◌-◌, ◌*◌, ◌/◌, ◌%◌, ◌^◌, ◌<◌, ◌≤◌, ◌==◌, if◌then◌else◌, Some, None};
ghost use Rattle.tiles.specs.TableEntries.{entry_at, frames_in, mapping_at, mapping_of, pages_in};
ghost use Rattle.pager_model.specs.Bounds.{space_pages};
ghost use Rattle.pager_model.specs.Tiles.{moved_by};
ghost use Rattle.tiles.specs.Kept.{AreTiles, AreTilesBut, MapsAlike};

use crate::entry::TableEntry;
use crate::mixed::Mixed;
use pager_model::{Mapping, Size, Steps};
use std::sync::ledger::Ledger;

/// Breaks the entry of a page down to one of a size.
fn split_to<L: Ledger>(
    map: &mut Mixed,
    entry: TableEntry,
    size: Size,
    page: u32,
    steps: &mut Steps<L>,
) -> TableEntry
    requires there { entry_at map.old page ≡ Some entry }
    requires size { size ≤ entry.extent.size }
    requires fits { entry.mapping.frame + 8 ^ entry.extent.size < 2 ^ 32 }
    requires tiles { AreTilesBut map.old page (suc entry.extent.size) }
    ensures there { entry_at map.new page ≡ Some result }
    ensures size { result.extent.size ≡ size }
    ensures tiles { AreTilesBut map.new page (suc size) }
    ensures pages { MapsAlike map.old map.new }
    ensures cost { steps.new + 12 * size ≤ steps.old + 12 * entry.extent.size }
{
    let mut entry = entry;
    while entry.extent.size.level() > size.level() {
        map.split(&entry, steps);
        entry = entry.part(page);
    }
    entry
}

/// Joins the entry of a page with those beside it as long as they form a larger one.
fn join_up<L: Ledger>(
    map: &mut Mixed,
    entry: TableEntry,
    page: u32,
    steps: &mut Steps<L>,
) -> TableEntry
    requires there { entry_at map.old page ≡ Some entry }
    requires tiles { AreTilesBut map.old page (suc entry.extent.size) }
    ensures there { entry_at map.new page ≡ Some result }
    ensures tiles { AreTiles map.new }
    ensures pages { MapsAlike map.old map.new }
    ensures cost { steps.new + 16 * entry.extent.size ≤ steps.old + 48 }
{
    let mut entry = entry;
    while entry.extent.size.level() < 3 {
        let larger = Size::at_level(entry.extent.size.level() + 1);
        let Some(whole) = map.whole(larger, page, steps) else {
            return entry;
        };
        map.join(&whole, steps);
        entry = whole;
    }
    entry
}

/// Maps a page that isn't mapped. The page's entry afterwards.
pub(crate) fn fill<L: Ledger>(
    map: &mut Mixed,
    page: u32,
    mapping: Mapping,
    steps: &mut Steps<L>,
) -> TableEntry
    requires page { page < space_pages }
    requires absent { entry_at map.old page ≡ None }
    requires room { pages_in map.old < frames_in map.old }
    requires tiles { AreTiles map.old }
    ensures there { entry_at map.new page ≡ Some result }
    ensures tiles { AreTiles map.new }
    ensures pages { (p : ℕ) → mapping_at map.new p ≡ (if p == page then Some mapping else mapping_at map.old p) }
    ensures frames { frames_in map.new ≡ frames_in map.old }
    ensures cost { steps.new ≤ steps.old + 58 }
{
    let entry = TableEntry::round(Size::at_level(0), page, mapping);
    map.put(&entry, steps);
    join_up(map, entry, page, steps)
}

/// Unmaps a page of an entry.
pub(crate) fn remove<L: Ledger>(map: &mut Mixed, entry: TableEntry, page: u32, steps: &mut Steps<L>)
    requires there { entry_at map.old page ≡ Some entry }
    requires fits { entry.mapping.frame + 8 ^ entry.extent.size < 2 ^ 32 }
    requires tiles { AreTiles map.old }
    ensures tiles { AreTiles map.new }
    ensures pages { (p : ℕ) → mapping_at map.new p ≡ (if p == page then None else mapping_at map.old p) }
    ensures frames { frames_in map.new ≡ frames_in map.old }
    ensures cost { steps.new ≤ steps.old + 46 }
{
    let base = split_to(map, entry, Size::at_level(0), page, steps);
    map.remove(&base, steps);
}

/// Gives the pages of the extent of a size from a page on, which lies in one entry, another mapping in the frames that they have. The page's
/// entry afterwards.
///
/// A part of an entry that has another mapping than the rest joins nothing: each larger extent round it has pages of that rest too.
pub(crate) fn set<L: Ledger>(
    map: &mut Mixed,
    entry: TableEntry,
    size: Size,
    page: u32,
    mapping: Mapping,
    steps: &mut Steps<L>,
) -> TableEntry
    requires there { entry_at map.old page ≡ Some entry }
    requires size { size ≤ entry.extent.size }
    requires first { page % 8 ^ size ≡ 0 }
    requires frame { mapping.frame ≡ (mapping_of entry page).frame }
    requires other { mapping ≢ mapping_of entry page }
    requires fits { entry.mapping.frame + 8 ^ entry.extent.size < 2 ^ 32 }
    requires tiles { AreTiles map.old }
    ensures there { entry_at map.new page ≡ Some result }
    ensures tiles { AreTiles map.new }
    ensures pages { (p : ℕ) → mapping_at map.new p ≡ (if p / 8 ^ size == page / 8 ^ size then Some (moved_by (p - page) mapping) else mapping_at map.old p) }
    ensures frames { frames_in map.new ≡ frames_in map.old }
    ensures cost { steps.new ≤ steps.old + 58 }
{
    let part = TableEntry::round(size, page, mapping);
    if entry.extent.size == size {
        map.replace(&part, steps);
        return join_up(map, part, page, steps);
    }
    split_to(map, entry, size, page, steps);
    map.replace(&part, steps);
    part
}
