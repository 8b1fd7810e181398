//! The misses at each capacity, counted entry by entry.

ghost use Rattle.std.specs.Prelude.{◌≡◌, ℕ, ◌+◌, ◌-◌, ◌<◌, ◌≤◌, ◌^◌, [], ◌∷◌, ◌++◌, List, length, IfOk};
ghost use Rattle.std.specs.List.{All};
ghost use Rattle.pager_model.specs.declared.entry.Entry.{Entry as Item};
ghost use Rattle.pager_model.specs.Bounds.{most_frames, space_pages};
ghost use Rattle.pager_model.specs.Settings.{Given};
ghost use Rattle.pager_model.specs.TraceText.{HasText};
ghost use Rattle.miss_curves.specs.Curves.{AnswersAlone, AreCurves, AreLong};
ghost use Rattle.miss_curves.specs.Histories.{Begins, Comes, IsNew, StandsFor};

use crate::entries::follow_next;
use crate::stacks::{Curves, Stacks};
use followed_space::FollowedSpace;
use pager_model::{Entry, NoMemory, Sizes, Trace};
use std::alloc::Global;
use std::marker::Model;

/// What the misses at each capacity are counted from, entry by entry.
#[derive(Drop)]
pub struct MissCurves {
    stacks: Stacks,
    spaces: Vec<FollowedSpace>,
    sizes: Sizes,
    // the memory of what is told at the end
    curves: Curves,
}

impl Model for MissCurves {
    ghost use Rattle.miss_curves.specs.Curves.{AreLong};
    ghost use Rattle.miss_curves.specs.Histories.{Counting};

    ghost Value = { Counting };

    ghost view = { λ m. record { sizes = m.sizes; rows = m.stacks; spaces = m.spaces.items } };

    ghost invariant = { λ m. AreLong m.stacks.places m.curves.tiles.items m.curves.pages.items };
}

impl MissCurves {
    /// Before any entry of a trace, with this largest capacity. All memory is taken here.
    pub fn create(alloc: Global, trace: &Trace, capacities: usize) -> Result<MissCurves, NoMemory>
        requires { capacities ≤ space_pages }
        ensures text { HasText trace.now }
        ensures starts { IfOk result (λ c. (g : Given) → Begins trace.now g → StandsFor c g []) }
        ensures places { IfOk result (λ c. c.rows.places ≡ capacities) }
        ensures unused { IfOk result (λ c. c.rows.entries ≡ 0) }
    {
        let spaces = trace.spaces();
        Ok(MissCurves {
            stacks: Stacks::create(alloc, spaces as usize, capacities)?,
            spaces: new_spaces(alloc, spaces, trace.frames())?,
            sizes: trace.sizes(),
            curves: Curves::create(alloc, capacities)?,
        })
    }

    /// Follows the next entry.
    pub fn follow(&mut self, entry: &Entry)
        requires comes { (g : Given) × (history : List Item) × StandsFor self.old g history × Comes g history entry.now }
        requires room { self.old.rows.entries < 2 ^ 64 - 1 }
        ensures stands { (g : Given) (history : List Item) → StandsFor self.old g history → Comes g history entry.now
            → StandsFor self.new g (history ++ entry.now ∷ []) }
        ensures entries { self.new.rows.entries ≤ self.old.rows.entries + 1 }
        ensures places { self.new.rows.places ≡ self.old.rows.places }
    {
        follow_next(&mut self.stacks, &mut self.spaces, entry, self.sizes);
    }

    /// The misses at each capacity.
    pub fn curves(self) -> Curves
        requires usual { 128 ≤ self.rows.places }
        ensures long { AreLong self.rows.places result.tiles.items result.pages.items }
        ensures curves { (g : Given) (history : List Item) → StandsFor self g history → AnswersAlone history
            → AreCurves self.rows.places g history result.tiles.items result.pages.items }
    {
        let memory = self.curves;
        self.stacks.curves(memory)
    }
}

/// So many spaces before their first entry, each with room for its pages in so many frames.
fn new_spaces(alloc: Global, spaces: u32, frames: u32) -> Result<Vec<FollowedSpace>, NoMemory>
    requires { frames ≤ most_frames }
    ensures spaces { IfOk result (λ all. length all.items ≡ spaces) }
    ensures new { IfOk result (λ all. All (IsNew frames) all.items) }
{
    let mut all = Vec::with_capacity(alloc, spaces as usize)?;
    for _ in 0..spaces {
        let space = FollowedSpace::create(alloc, frames)?;
        all.push(space)?;
    }
    Ok(all)
}
