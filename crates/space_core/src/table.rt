//! What a space keeps of its pages: which are resident, in which frames and tiles, which are dirty, and which rights a protect gave them.

ghost use Rattle.std.specs.Prelude.{◌≡◌, ◌≢◌, ◌∷◌, [], ◌+◌, ◌<◌, ◌≤◌, ℕ, List, true, false, length, None, Some, IfOk, IfSome, IfNone, OnErr, option_map};
ghost use Rattle.pager_model.specs.SpaceStates.{Rises};
ghost use Rattle.pager_model.specs.Tiles.{tile_in, is_tile_in, tile_count_in};
ghost use Rattle.pager_model.specs.Stored.{copy_at, keeps_at, SameCopies, SetsCopy};
ghost use Rattle.store_core.specs.MemoryState.{one_more};
ghost use Rattle.tiles.specs.Sized.{AreMovesIn, large_tiles_meeting_in};
ghost use Rattle.space_core.specs.Tables.{mapping_in, frame_in, word_in, own_in, dirty_in};
ghost use Rattle.space_core.specs.Pages.{IsFresh, Maps, Refills, HasWords, SetsWord, Writes, Cleans, Protects, Forgets, IsFirstResident, NoneFrom};
ghost use Rattle.pager_model.specs.Bounds.{most_frames, space_pages};

use crate::frames::word;
use crate::places::Places;
use page_rights::PageRights;
use pager_model::{Frame, Mapping, NoMemory, Rights, Sizes, Tile, WORDS};
use std::alloc::Global;
use std::marker::{Brand, Model};
use std::sync::ledger::Blank;
use store_core::{Store, StoreFailed, WriteRefused};
use tiles::counted::{after_dirty, after_fill, after_remove, after_rights};
use tiles::{Base, Moves, Translation};

/// The pages of a space. A resident page is found by its number, and its frame by the frame's.
#[derive(Drop)]
pub struct PageTable {
    /// Which page sizes its tiles have.
    sizes: Sizes,
    /// The resident pages, and the tiles that they make.
    pages: Base,
    /// The rights that a protect gave pages.
    own: PageRights,
    /// For each number the frame, where a page has it.
    frames: Places,
    /// Words for a store to read a copy into, kept so that no read has to make them. What they are means nothing.
    copy: Box<[u64; WORDS]>,
}

impl Model for PageTable {
    ghost use Rattle.space_core.specs.Tables.{Table};
    ghost use Rattle.space_core.specs.Pages.{IsPaged};

    ghost Value = { Table };

    ghost view = { λ t. record {
      sizes = t.sizes;
      pages = t.pages;
      own = t.own;
      frames = t.frames;
    } };

    ghost invariant = { λ t. IsPaged (record {
      sizes = t.sizes;
      pages = t.pages;
      own = t.own;
      frames = t.frames;
    }) };
}

impl PageTable {
    /// Room for the pages of a space, with tiles of these sizes, and for so many frames: no page is resident, and none has rights of its own.
    pub fn create(alloc: Global, frames: u32, sizes: Sizes) -> Result<PageTable, NoMemory>
        requires { frames ≤ most_frames }
        ensures { IfOk result (IsFresh frames sizes) }
    {
        // What has most to drop is made last, so that no way out drops it.
        Ok(PageTable {
            sizes,
            copy: Box::new(alloc, [0; WORDS])?,
            frames: Places::create(alloc, frames)?,
            own: PageRights::create(alloc)?,
            pages: Base::create(alloc, frames)?,
        })
    }

    /// The number of a page's frame, where it is resident.
    pub fn number(&self, page: u32) -> Option<u32>
        ensures number { result ≡ frame_in self.now page }
        ensures in_space { IfSome result (λ _. page < space_pages) }
    {
        Some(self.pages.mapping(page)?.frame)
    }

    /// The mapping of a page, where it is resident.
    pub fn mapping(&self, page: u32) -> Option<Mapping>
        ensures mapping { result ≡ mapping_in self.now page }
        ensures some { IfSome result (λ m. (frame_in self.now page ≡ Some m.frame) × (dirty_in self.now page ≡ m.dirty)) }
        ensures in_space { IfSome result (λ _. page < space_pages) }
        ensures none { IfNone result ((frame_in self.now page ≡ None) × (dirty_in self.now page ≡ false)) }
    {
        self.pages.mapping(page)
    }

    /// What a page is mapped by, where it is resident: its mapping and its tile.
    pub fn translate(&self, page: u32) -> Option<Translation>
        ensures mapping { option_map (λ t. t.mapping) result ≡ mapping_in self.now page }
        ensures tile { option_map (λ t. t.tile) result ≡ tile_in self.now.sizes (mapping_in self.now) page }
        ensures in_space { IfSome result (λ t. (page < space_pages) × (t.mapping.frame < length self.now.frames)) }
    {
        self.pages.translate(page, self.sizes)
    }

    /// Whether it is a tile of the pages as they are.
    pub fn is_tile(&self, tile: &Tile) -> bool
        ensures { result ≡ is_tile_in self.now.sizes (mapping_in self.now) tile.now }
    {
        self.pages.is_tile(tile, self.sizes)
    }

    /// How many tiles of size 1 or more have a page of the range.
    pub fn tiles_meeting(&self, first: u32, length: u32) -> u32
        requires { first + length ≤ space_pages }
        ensures { result ≡ large_tiles_meeting_in self.now.sizes first length (mapping_in self.now) }
    {
        self.pages.tiles_meeting(first, length, self.sizes)
    }

    /// How many tiles there are of each size.
    pub fn tile_counts(&self) -> [u32; 4]
        ensures { result ≡ tile_count_in self.now.sizes (mapping_in self.now) 0 ∷ tile_count_in self.now.sizes (mapping_in self.now) 1
            ∷ tile_count_in self.now.sizes (mapping_in self.now) 2 ∷ tile_count_in self.now.sizes (mapping_in self.now) 3 ∷ [] }
    {
        self.pages.counts(self.sizes)
    }

    /// The rights that a protect gave a page.
    pub fn own(&self, page: u32) -> Option<Rights>
        requires { page < space_pages }
        ensures { result ≡ own_in self.now page }
    {
        self.own.get(page)
    }

    /// A word of the page that has the frame of this number.
    pub fn word_by(&self, number: u32, index: usize) -> u64
        requires resident { (page : ℕ) × (frame_in self.now page ≡ Some number) }
        requires index { index < 1024 }
        ensures { (page : ℕ) → frame_in self.now page ≡ Some number → result ≡ word_in self.now page index }
    {
        word(self.frames.frame(number), index)
    }

    /// The lowest resident page from `from` on and before `end`.
    pub fn first_resident(&self, from: u32, end: u32) -> Option<u32>
        requires { end ≤ space_pages }
        ensures some { IfSome result (IsFirstResident self.now from end) }
        ensures none { IfNone result (NoneFrom self.now from end) }
    {
        self.pages.next_resident(from, end)
    }

    /// Puts a frame under a page that isn't resident, of the region that begins at this page and with these rights. The moves of its tiles.
    pub fn put(&mut self, page: u32, frame: Frame, region: u32, rights: Rights) -> Moves
        requires page { page < space_pages }
        requires absent { frame_in self.old page ≡ None }
        requires known { frame.number < length self.old.frames }
        requires other { (p : ℕ) → frame_in self.old p ≢ Some frame.number }
        ensures maps { Maps page (Some (record { frame = frame.number; region = region; rights = rights; dirty = false })) self.old self.new }
        ensures moves { AreMovesIn self.old.sizes (mapping_in self.old) (mapping_in self.new) result }
    {
        let number = frame.number();
        self.frames.put(frame);
        let mapping = Mapping {
            frame: number,
            region,
            rights,
            dirty: false,
        };
        let changes = after_fill::<Brand>(&mut self.pages, page, mapping, Blank::new(1));
        changes.moves(self.sizes)
    }

    /// Takes the frame of a page away, where it is resident. The moves of its tiles.
    pub fn take(&mut self, page: u32) -> Option<(Frame, Moves)>
        ensures some { IfSome result (λ taken. (frame_in self.old page ≡ Some taken.0.number) × AreMovesIn self.old.sizes (mapping_in self.old) (mapping_in self.new) taken.1) }
        ensures none { IfNone result (frame_in self.old page ≡ None) }
        ensures after { Maps page None self.old self.new }
    {
        let changes = after_remove::<Brand>(&mut self.pages, page, Blank::new(1));
        let number = changes.frame_before()?;
        let frame = self.frames.take(number)?;
        Some((frame, changes.moves(self.sizes)))
    }

    /// Takes the frame of the lowest resident page from `from` on and before `end` away.
    pub fn take_next(&mut self, from: u32, end: u32) -> Option<(u32, Frame)>
        requires { end ≤ space_pages }
        ensures some { IfSome result (λ taken. IsFirstResident self.old from end taken.0 × (frame_in self.old taken.0 ≡ Some taken.1.number) × Maps taken.0 None self.old self.new) }
        ensures none { IfNone result (NoneFrom self.old from end × (self.new ≡ self.old)) }
    {
        let (page, number) = self.pages.take_next(from, end)?;
        let frame = self.frames.take(number)?;
        Some((page, frame))
    }

    /// Reads the copy of the page that has the frame of this number from the store, once.
    pub fn read_copy<S: Store>(
        &mut self,
        page: u32,
        number: u32,
        store: &mut S,
    ) -> Result<(), StoreFailed>
        requires resident { frame_in self.old page ≡ Some number }
        ensures table { Refills page self.old self.new }
        ensures read { IfOk result (λ _. (words : List ℕ) → (S.seen store.old).tells ≡ true
            → copy_at (S.seen store.old) page ≡ Some words → HasWords self.new page words) }
        ensures same { SameCopies (S.seen store.old) (S.seen store.new) }
        ensures counted { S.reads store.new ≡ one_more (S.reads store.old) }
        ensures unwritten { S.writes store.new ≡ S.writes store.old }
        ensures unfailed { IfOk result (λ _. (S.seen store.new).faults ≡ (S.seen store.old).faults) }
        ensures rose { OnErr result (Rises (S.seen store.old).faults (S.seen store.new).faults) }
        ensures never_falls { (S.seen store.old).faults ≤ (S.seen store.new).faults }
    {
        let copied = store.read(page, &mut *self.copy)?;
        self.frames.set_copied(number, copied, &*self.copy);
        Ok(())
    }

    /// Writes the words of the page that has the frame of this number to its copy in the store, once.
    pub fn write_copy<S: Store>(
        &self,
        page: u32,
        number: u32,
        store: &mut S,
    ) -> Result<(), WriteRefused>
        requires resident { frame_in self.now page ≡ Some number }
        ensures wrote { IfOk result (λ _. (words : List ℕ) × HasWords self.now page words
            × SetsCopy page (Some words) (S.seen store.old) (S.seen store.new)) }
        ensures failed { result ≡ Err WriteRefused.Failed
            → SetsCopy page None (S.seen store.old) (S.seen store.new) × Rises (S.seen store.old).faults (S.seen store.new).faults }
        ensures no_memory { result ≡ Err WriteRefused.NoMemory
            → (keeps_at (S.seen store.old) page ≡ false) × SameCopies (S.seen store.old) (S.seen store.new)
            × ((S.seen store.new).faults ≡ (S.seen store.old).faults) }
        ensures lasting { result ≡ Err WriteRefused.NoMemory → page < space_pages → S.lasts ≡ false }
        ensures counted { S.writes store.new ≡ one_more (S.writes store.old) }
        ensures unread { S.reads store.new ≡ S.reads store.old }
        ensures unfailed { IfOk result (λ _. (S.seen store.new).faults ≡ (S.seen store.old).faults) }
        ensures never_falls { (S.seen store.old).faults ≤ (S.seen store.new).faults }
    {
        let frame = self.frames.frame(number);
        store.write(page, frame.words())
    }

    /// Whether a page was stored to since it was last equal to its copy.
    pub fn is_dirty(&self, page: u32) -> bool
        ensures dirty { result ≡ dirty_in self.now page }
        ensures resident { result ≡ true → frame_in self.now page ≢ None }
    {
        match self.pages.mapping(page) {
            Some(mapping) => mapping.dirty,
            None => false,
        }
    }

    /// A page is equal to its copy. The moves of its tiles.
    pub fn set_clean(&mut self, page: u32) -> Moves
        ensures cleans { Cleans page self.old self.new }
        ensures moves { AreMovesIn self.old.sizes (mapping_in self.old) (mapping_in self.new) result }
    {
        let changes = after_dirty::<Brand>(&mut self.pages, page, false, Blank::new(1));
        changes.moves(self.sizes)
    }

    /// Writes a word of the page that has the frame of this number, and that is dirty then. The moves of its tiles.
    pub fn set_word(&mut self, page: u32, number: u32, index: usize, word: u64) -> Moves
        requires resident { frame_in self.old page ≡ Some number }
        requires index { index < 1024 }
        ensures writes { Writes page index word self.old self.new }
        ensures moves { AreMovesIn self.old.sizes (mapping_in self.old) (mapping_in self.new) result }
    {
        let changes = after_dirty::<Brand>(&mut self.pages, page, true, Blank::new(1));
        let moves = changes.moves(self.sizes);
        self.write_word_by(number, index, word);
        moves
    }

    /// Writes a word of the page that has the frame of this number, and whose dirty flag stays.
    pub fn write_word_by(&mut self, number: u32, index: usize, word: u64)
        requires resident { (page : ℕ) × (frame_in self.old page ≡ Some number) }
        requires index { index < 1024 }
        ensures { (page : ℕ) → frame_in self.old page ≡ Some number → SetsWord page index word self.old self.new }
    {
        self.frames.set_word(number, index, word);
    }

    /// Gives the pages of a range these rights of their own. The moves of their tiles.
    pub fn protect(&mut self, first: u32, length: u32, rights: Rights) -> Moves
        requires { first + length ≤ space_pages }
        ensures protects { Protects first length rights self.old self.new }
        ensures moves { AreMovesIn self.old.sizes (mapping_in self.old) (mapping_in self.new) result }
    {
        self.own.set(first, length, Some(rights));
        after_rights::<Brand>(
            &mut self.pages,
            first,
            length,
            rights,
            self.sizes,
            Blank::new(1),
        )
    }

    /// Takes the rights of their own from the pages of a range, none of which is resident.
    pub fn forget_rights(&mut self, first: u32, length: u32)
        requires { first + length ≤ space_pages }
        ensures { Forgets first length self.old self.new }
    {
        self.own.set(first, length, None);
    }
}
