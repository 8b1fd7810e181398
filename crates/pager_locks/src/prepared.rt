//! A pager that isn't opened yet.

ghost use Rattle.std.specs.Prelude.{◌≡◌, ◌<◌, ◌≤◌, ◌+◌, ◌^◌, ◌%◌, IfOk, IfErr, length, map, sum};
ghost use Rattle.std.specs.List.{All};
ghost use Rattle.pager_model.specs.Stores.{given_over, AreCapped};
ghost use Rattle.journal_core.specs.Journals.{new_passes};
ghost use Rattle.pager_model.specs.Bounds.{most_frames, most_spaces, most_actors};

use crate::naming::Named;
use crate::pager::Pager;
use frame_pool::Pool;
use journal_core::{Author, Journal, Pass, create};
use pager_core::RunRoom;
use pager_model::Sizes;
use space_core::Space;
use std::alloc::Global;
use std::marker::Model;
use store_core::Store;

/// The journal, the spaces and the pool of a pager that isn't opened yet.
#[derive(Drop)]
pub struct Prepared<S: Store + Send + Drop> {
    journal: Journal,
    authors: Vec<Author>,
    passes: Vec<Pass>,
    spaces: Vec<Space<S>>,
    pool: Pool,
    // Emptied, with room for the stores that the spaces give back.
    stores: Vec<S>,
}

impl<S: Store + Send + Drop> Model for Prepared<S> {
    ghost use Rattle.std.specs.Prelude.{◌≡◌, ◌≤◌, [], length, vec_capacity};
    ghost use Rattle.pager_locks.specs.Prepared.{PreparedState, AreNewParts};

    ghost Value = { PreparedState };

    ghost view = { λ p. record { journal = p.journal; passes = p.passes.items } };

    ghost invariant = { λ p. AreNewParts p.journal.name p.spaces.items p.authors.items p.pool
        × (p.stores.items ≡ []) × (length p.journal.name.setting.told ≤ vec_capacity p.stores) };
}

impl<S: Store + Send + Drop> Prepared<S> {
    /// A space with these page sizes for each store, a processor for each mark, with room for so many entries, and a journal without entries. All the memory that
    /// a pager takes, but for that of the stores' writes, is taken here, and for want of it the stores come back.
    pub fn create(
        alloc: Global,
        frames: u32,
        sizes: Sizes,
        marks: &[u32],
        stores: Vec<S>,
        rooms: &[usize],
    ) -> Result<Prepared<S>, Vec<S>>
        requires frames { (frames % 512 ≡ 0) × (frames ≤ most_frames) }
        requires stores { (1 ≤ length stores.items) × (length stores.items ≤ most_spaces) }
        requires processors { (1 ≤ length marks.now) × (length marks.now ≤ most_actors) × (length rooms.now ≡ length marks.now) }
        requires rooms { All (λ r. r ≤ 2 ^ 31) rooms.now }
        ensures setting { IfOk result (λ p. p.journal.name.setting ≡ given_over frames sizes marks.now (map S.seen stores.items)) }
        ensures passes { IfOk result (λ p. p.passes ≡ new_passes p.journal.name 0 rooms.now) }
        ensures room { IfOk result (λ p. p.journal.room ≡ sum rooms.now) }

        // Each store was asked for its count of faults.
        ensures capped { IfOk result (λ _. AreCapped (length stores.items) (map S.seen stores.items)) }
        ensures back { IfErr result (λ back. map S.seen back.items ≡ map S.seen stores.items) }
    {
        let Ok(room) = RunRoom::create(alloc, frames, sizes, marks, stores.as_slice()) else {
            return Err(stores);
        };
        let Ok(opened) = create(alloc, room.setting, rooms) else {
            drop(room.spaces);
            drop(room.pool);
            return Err(stores);
        };
        let (spaces, stores) = room.spaces.over(stores);
        Ok(Prepared {
            journal: opened.journal,
            authors: opened.authors,
            passes: opened.passes,
            spaces,
            pool: room.pool,
            stores,
        })
    }

    /// Puts each part behind its lock, and hands out the passes. The function that calls this is one over the name of the journal.
    pub fn open<N: Named>(self) -> Running<N, S>
        requires named { self.journal.name ≡ N.journal }
        ensures pager { result.pager ≡ self.journal }
        ensures passes { result.passes.items ≡ self.passes }
    {
        Running {
            pager: Pager::open(
                self.journal,
                self.spaces,
                self.authors,
                self.pool,
                self.stores,
            ),
            passes: self.passes,
        }
    }
}

/// An open pager, and the passes of its processors.
#[derive(Drop)]
pub struct Running<N: Named, S: Store + Send + Drop> {
    pub pager: Pager<N, S>,
    pub passes: Vec<Pass>,
}
