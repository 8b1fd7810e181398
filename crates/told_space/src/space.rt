//! A space that is followed, with its words and images.

ghost use Rattle.std.specs.Prelude.{◌≡◌, ◌≤◌, IfOk, IfSome, IfNone, length, true};
ghost use Rattle.pager_model.specs.Bounds.{most_actors, most_frames, space_pages};
ghost use Rattle.pager_model.specs.SpaceStates.{empty_state};
ghost use Rattle.tiles.specs.Resident.{IsNextResident, NoneResident, frame_of_page, frames_in, mapping_at};
ghost use Rattle.told_space.specs.Told.{Stands, kept_of};

use crate::next::Next;
use crate::words::Words;
use followed_space::FollowedSpace;
use pager_model::{NoMemory, Sizes};
use std::alloc::Global;
use tlb_images::Images;

/// A space after some entries.
#[derive(Drop)]
pub struct ToldSpace {
    pub(crate) space: FollowedSpace,
    pub(crate) words: Words,
    pub(crate) images: Images,
    pub(crate) next: Next,
    /// The highest count of faults so far.
    pub(crate) highest: u64,
    pub(crate) sizes: Sizes,
}

impl ToldSpace {
    /// A space before its first entry, whose store tells its copies and never failed, with room for its pages in so many frames, and an image for each
    /// of so many processors.
    pub fn create(
        alloc: Global,
        sizes: Sizes,
        frames: u32,
        processors: u32,
    ) -> Result<ToldSpace, NoMemory>
        requires frames { frames ≤ most_frames }
        requires processors { processors ≤ most_actors }
        ensures stands { IfOk result (λ s. Stands (kept_of s) (empty_state sizes true 0)) }
        ensures images { IfOk result (λ s. length s.images ≡ processors) }
        ensures frames { IfOk result (λ s. frames_in s.space.pages ≡ frames) }
    {
        let space = FollowedSpace::create(alloc, frames)?;
        let images = Images::create(alloc, processors)?;
        Ok(ToldSpace {
            space,
            words: Words::new(alloc),
            images,
            next: Next::Anyone,
            highest: 0,
            sizes,
        })
    }

    /// The lowest resident page from `from` on and before `end`.
    pub fn next_resident(&self, from: u32, end: u32) -> Option<u32>
        requires { end ≤ space_pages }
        ensures some { IfSome result (IsNextResident (mapping_at self.now.space.pages) from end) }
        ensures none { IfNone result (NoneResident (mapping_at self.now.space.pages) from end) }
    {
        self.space.next_resident(from, end)
    }

    /// The frame of a page, where it is resident.
    pub fn frame_of(&self, page: u32) -> Option<u32>
        ensures { result ≡ frame_of_page self.now.space.pages page }
    {
        let mapping = self.space.mapping(page)?;
        Some(mapping.frame)
    }
}
