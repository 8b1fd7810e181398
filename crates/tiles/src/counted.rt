//! Calls with a counter of steps of their own, which begins at 0, for callers that count none.

ghost use Rattle.std.specs.Prelude.{◌≡◌, ◌≢◌, ℕ, ◌+◌, ◌<◌, ◌≤◌, IfNone, IfSome, None, Some, option_map};
ghost use Rattle.tiles.specs.TableEntries.{IsNextEntry, NoneMapped, entry_at};
ghost use Rattle.pager_model.specs.Bounds.{space_pages};
ghost use Rattle.tiles.specs.Changes.{AreChanges, frame_before};
ghost use Rattle.tiles.specs.Resident.{Maps, Protects, frame_of_page, frames_in, mapping_at, with_flag};
ghost use Rattle.tiles.specs.Sized.{AreMovesIn};

use crate::base::Base;
use crate::changes::Changes;
use crate::entry::TableEntry;
use crate::mixed::Mixed;
use crate::moves::Moves;
use pager_model::{Mapping, Rights, Sizes, Steps};
use std::sync::ledger::{Blank, Ledger};

/// The entry that maps a page, where one does.
pub(crate) fn lookup<L: Ledger>(map: &Mixed, page: u32, blank: Blank) -> Option<TableEntry>
    requires name { blank.name ≡ L.name }
    requires parts { blank.parts ≡ L.parts }
    requires share { 0 < blank.parts }
    ensures { result ≡ entry_at map.now page }
{
    let (book, share) = blank.open::<L>();
    map.lookup(page, &mut Steps::begin(book, share))
}

/// The entry of the lowest page from one on and before an end that is mapped.
pub(crate) fn next<L: Ledger>(map: &Mixed, from: u32, end: u32, blank: Blank) -> Option<TableEntry>
    requires name { blank.name ≡ L.name }
    requires parts { blank.parts ≡ L.parts }
    requires share { 0 < blank.parts }
    requires end { end ≤ space_pages }
    ensures some { IfSome result (IsNextEntry map.now from end) }
    ensures none { IfNone result (NoneMapped map.now from end) }
{
    let (book, share) = blank.open::<L>();
    map.next(from, end, &mut Steps::begin(book, share))
}

/// A page of an entry is resident no more.
pub(crate) fn remove<L: Ledger>(base: &mut Base, entry: TableEntry, page: u32, blank: Blank)
    requires name { blank.name ≡ L.name }
    requires parts { blank.parts ≡ L.parts }
    requires share { 0 < blank.parts }
    requires there { entry_at base.old page ≡ Some entry }
    ensures { Maps page None base.old base.new }
{
    let (book, share) = blank.open::<L>();
    base.remove(entry, page, &mut Steps::begin(book, share));
}

/// A page that isn't resident is, with this mapping; no other page has its frame.
pub fn after_fill<L: Ledger>(base: &mut Base, page: u32, mapping: Mapping, blank: Blank) -> Changes
    requires name { blank.name ≡ L.name }
    requires parts { blank.parts ≡ L.parts }
    requires share { 0 < blank.parts }
    requires page { page < space_pages }
    requires absent { mapping_at base.old page ≡ None }
    requires known { mapping.frame < frames_in base.old }
    requires other { (p : ℕ) → frame_of_page base.old p ≢ Some mapping.frame }
    ensures maps { Maps page (Some mapping) base.old base.new }
    ensures changes { AreChanges base.old base.new result }
{
    let (book, share) = blank.open::<L>();
    base.after_fill(page, mapping, &mut Steps::begin(book, share))
}

/// A page is resident no more.
pub fn after_remove<L: Ledger>(base: &mut Base, page: u32, blank: Blank) -> Changes
    requires name { blank.name ≡ L.name }
    requires parts { blank.parts ≡ L.parts }
    requires share { 0 < blank.parts }
    ensures maps { Maps page None base.old base.new }
    ensures changes { AreChanges base.old base.new result }
    ensures frame { frame_before result ≡ frame_of_page base.old page }
{
    let (book, share) = blank.open::<L>();
    base.after_remove(page, &mut Steps::begin(book, share))
}

/// A page has this dirty flag, where it is resident.
pub fn after_dirty<L: Ledger>(base: &mut Base, page: u32, dirty: bool, blank: Blank) -> Changes
    requires name { blank.name ≡ L.name }
    requires parts { blank.parts ≡ L.parts }
    requires share { 0 < blank.parts }
    ensures maps { Maps page (option_map (with_flag dirty) (mapping_at base.old page)) base.old base.new }
    ensures changes { AreChanges base.old base.new result }
{
    let (book, share) = blank.open::<L>();
    base.after_dirty(page, dirty, &mut Steps::begin(book, share))
}

/// The resident pages of a range have these rights. The moves by some sizes are those of the whole change.
pub fn after_rights<L: Ledger>(
    base: &mut Base,
    first: u32,
    length: u32,
    rights: Rights,
    sizes: Sizes,
    blank: Blank,
) -> Moves
    requires name { blank.name ≡ L.name }
    requires parts { blank.parts ≡ L.parts }
    requires share { 0 < blank.parts }
    requires range { first + length ≤ space_pages }
    ensures protects { Protects first length rights base.old base.new }
    ensures moves { AreMovesIn sizes (mapping_at base.old) (mapping_at base.new) result }
{
    let (book, share) = blank.open::<L>();
    let mut steps = Steps::begin(book, share);
    base.after_rights(first, length, rights, sizes, &mut steps)
}
