//! What a call ends with: an access to a resident page, and what needed its pages' frames first.

ghost use Rattle.std.specs.Prelude.{◌≡◌, length, ℕ, ◌+◌, ◌<◌, ◌≤◌, true, Some, None, IfSome, IfNone};
ghost use Rattle.std.specs.Option.{ForSome};
ghost use Rattle.pager_model.specs.declared.region.Region.{Region as Item};
ghost use Rattle.pager_model.specs.Flat.{page_of, space_of_call};
ghost use Rattle.pager_model.specs.Images.{is_in_image};
ghost use Rattle.pager_model.specs.Regions.{region_at, discard_reply};
ghost use Rattle.region_table.specs.Table.{pin_reply};
ghost use Rattle.pager_model.specs.SpaceStates.{access_page};
ghost use Rattle.space_core.specs.Beginning.{IsMappedBy, Finishes, IsEvicting, Evicts, AreAbsent, ClearsOne, ClearsNone, Unmapped, Discarded, Pinned};
ghost use Rattle.space_core.specs.Standing.{IsResting, range_of, frame_at, image_at, is_allowed, CanBegin};
ghost use Rattle.space_core.specs.Translating.{Touches, BeginsClear};
ghost use Rattle.pager_model.specs.Bounds.{space_bytes, space_pages};

use super::{Space, copied, keep_tiles};
use crate::access::answered;
use pager_model::{Answered, Call, Frame, PageRange, Reply, Tile, page_of, word_of};
use store_core::Store;
use tiles::Translation;

impl<S: Store + Send + Drop> Space<S> {
    /// Ends a load or a store that is allowed and whose page is mapped by this: its word, or done.
    pub fn finish(&mut self, processor: u32, call: &Call, found: Translation) -> Answered
        requires processor { processor < length self.old.images }
        requires space { space_of_call call.now ≡ self.old.number }
        requires resting { IsResting self.old }
        requires can { CanBegin call.now }
        requires allowed { is_allowed self.old call.now ≡ true }
        requires found { IfSome (access_page call.now) (λ page. IsMappedBy self.old page found) }
        ensures { Finishes self.old self.new processor call.now result }
    {
        match *call {
            Call::Load { address, .. } => self.load(processor, address, found),
            Call::Store { address, word, .. } => self.store(processor, address, word, found),
            _ => unreachable!(),
        }
    }

    /// The word of a page that is mapped by this.
    fn load(&mut self, processor: u32, address: u64, found: Translation) -> Answered
        requires processor { processor < length self.old.images }
        requires resting { IsResting self.old }
        requires allowed { is_allowed self.old (Call.Load self.old.number address) ≡ true }
        requires found { IsMappedBy self.old (page_of address) found }
        ensures { Finishes self.old self.new processor (Call.Load self.old.number address) result }
    {
        let word = self.table.word_by(found.mapping.frame, word_of(address));
        self.touch(processor, &found.tile, Reply::Value(word))
    }

    /// Writes the word of a page that is mapped by this, and whose tiles change where it was clean.
    fn store(&mut self, processor: u32, address: u64, word: u64, found: Translation) -> Answered
        requires processor { processor < length self.old.images }
        requires resting { IsResting self.old }
        requires in_space { address < space_bytes }
        requires allowed { is_allowed self.old (Call.Store self.old.number address word) ≡ true }
        requires found { IsMappedBy self.old (page_of address) found }
        ensures { Finishes self.old self.new processor (Call.Store self.old.number address word) result }
    {
        let number = found.mapping.frame;
        let index = word_of(address);
        if found.mapping.dirty {
            self.table.write_word_by(number, index, word);
            return self.touch(processor, &found.tile, Reply::Done);
        }
        let page = page_of(address);
        let hit = self.has_translation(processor, found.tile);
        let moves = self.table.set_word(page, number, index, word);
        self.follow(moves);
        let Some(then) = self.table.translate(page) else {
            unreachable!()
        };
        let answered = self.touch(processor, &then.tile, Reply::Done);
        Answered { hit, ..answered }
    }

    /// The processor used the tile, which comes to the front of its image; the whole answer, a hit where the tile stood there.
    fn touch(&mut self, processor: u32, tile: &Tile, reply: Reply) -> Answered
        requires { processor < length self.old.images }
        ensures touched { Touches self.old self.new processor (Some tile.now) }
        ensures answered { result ≡ record {
          reply = reply;
          hit = is_in_image (image_at self.old processor) (Some tile.now);
          size = Some tile.now.extent.size;
        } }
    {
        let hit = self.images.touch(processor, *tile);
        Answered {
            reply,
            hit,
            size: Some(tile.extent.size),
        }
    }

    /// Whether the processor's image has the tile.
    fn has_translation(&self, processor: u32, tile: Tile) -> bool
        requires { processor < length self.now.images }
        ensures { result ≡ is_in_image (image_at self.now processor) (Some tile) }
    {
        self.images.has(processor, Some(tile))
    }

    /// Takes the frame of the page away that is being evicted, and answers the evict.
    pub fn evict(&mut self, page: u32) -> (Frame, Answered)
        requires { IsEvicting self.old page }
        ensures { Evicts self.old self.new page result.0.number result.1 }
    {
        let reply = copied(self.table.is_dirty(page));
        self.paged = None;
        (self.take(page), answered(reply))
    }

    /// The lowest resident page of a range, with its frame, which it gives up. `None` exactly where no page of the range is resident; the
    /// space then waits for the unmap of the region that has that range, or for the discard of the range.
    pub fn clear_next(&mut self, range: PageRange) -> Option<(u32, Frame)>
        requires in_space { range.first + range.length ≤ space_pages }
        requires none_pending { self.old.pending ≡ None }
        ensures some { IfSome result (λ given. ClearsOne self.old self.new range.first range.length given.0 given.1.number) }
        ensures none { IfNone result (ClearsNone self.old self.new range.first range.length) }
        ensures none_left { AreAbsent self.old range.first range.length → result ≡ None }
    {
        let from = self.begin_clearing(range);
        let end = range.first + range.length;
        let Some((page, frame)) = self.table.take_next(from, end) else {
            self.scan = end;
            self.demotions = self.demotions.saturating_add(u64::from(self.broken));
            keep_tiles(&mut self.images, &self.table);
            return None;
        };
        self.scan = page + 1;
        Some((page, frame))
    }

    /// Goes on with the clearing of a range, or begins it, where the large tiles that meet it are counted first, from its first resident page on: none
    /// where it has none. None of its pages before the result is resident.
    fn begin_clearing(&mut self, range: PageRange) -> u32
        requires in_space { range.first + range.length ≤ space_pages }
        requires none_pending { self.old.pending ≡ None }
        ensures begun { range.first ≤ result }
        ensures done { (p : ℕ) → range.first ≤ p → p < result → frame_at self.old p ≡ None }
        ensures counts { BeginsClear self.old self.new range.first range.length }
    {
        if self.clearing == Some(range) {
            return self.scan;
        }
        let end = range.first + range.length;
        self.clearing = Some(range);
        let Some(page) = self.table.first_resident(range.first, end) else {
            self.broken = 0;
            self.scan = end;
            return end;
        };
        self.broken = self.table.tiles_meeting(page, end - page);
        self.scan = page;
        page
    }

    /// Takes away the region that has the page, after its range was cleared.
    pub fn unmap(&mut self, page: u32) -> Answered
        requires none_pending { self.old.pending ≡ None }
        requires none_paged { self.old.paged ≡ None }
        requires cleared { (r : Item) × (region_at self.old.regions page ≡ Some r) × (self.old.clearing ≡ Some (range_of r.first r.length)) × AreAbsent self.old r.first r.length }
        ensures { Unmapped self.old self.new page result }
    {
        let Ok(region) = self.regions.unmap(page) else {
            unreachable!();
        };
        self.table.forget_rights(region.first, region.length);
        self.store.drop_pages(region.first, region.length);
        self.clearing = None;
        answered(Reply::Done)
    }

    /// Drops the copies of a range's pages, none of which is resident: they are new but for their rights. Where a range is being cleared,
    /// it is this one.
    pub fn discard(&mut self, page: u32, length: u32) -> Answered
        requires none_pending { self.old.pending ≡ None }
        requires none_paged { self.old.paged ≡ None }
        requires no_other { ForSome self.old.clearing (λ r. r ≡ range_of page length) }
        requires may { discard_reply self.old.regions page length ≡ Reply.Done }
        requires absent { AreAbsent self.old page length }
        ensures { Discarded self.old self.new page length result }
    {
        self.store.drop_pages(page, length);
        self.clearing = None;
        answered(Reply::Done)
    }

    /// Pins the region that has the page, or leaves it pinned no longer.
    pub fn pin(&mut self, page: u32, pinned: bool) -> Answered
        requires resting { IsResting self.old }
        requires may { pin_reply pinned self.old.regions page ≡ Reply.Done }
        ensures { Pinned self.old self.new page pinned result }
    {
        let Ok(_) = self.regions.pin(page, pinned) else {
            unreachable!();
        };
        answered(Reply::Done)
    }
}
