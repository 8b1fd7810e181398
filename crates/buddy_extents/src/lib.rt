//! The free frames, and which extent of them a taking uses: the lowest frames of the least free block that is large enough,
//! where a block is an aligned run of a power of two of frames.
//!
//! What is kept is the largest free blocks, as a set of numbers. A block that is cut leaves halves, and one that comes back is joined
//! with its buddy, the other half of the next larger block.
#![tactic(auto)]

ghost use Rattle.std.specs.Prelude.{◌≡◌, ℕ, ◌+◌, ◌*◌, ◌%◌, ◌^◌, ◌<◌, ◌≤◌, true, false, length, replicate, slice_index_or, count_by, IfOk, MatchOption, is_some};
ghost use Rattle.pager_model.specs.Extents.{IsExtent};
ghost use Rattle.pager_model.specs.FreeBlocks.{choice, with_range};
ghost use Rattle.pager_model.specs.Bounds.{most_frames};

mod hand;
pub mod laws;
mod nodes;

use bit_set::BitSet;
use hand::{cut, put_all_in, put_in};
use nodes::{NODES, first_frame, first_node, order_of};
use pager_model::{Extent, NoMemory, Size, Steps};
use std::alloc::Global;
use std::marker::{Brand, Model};
use std::sync::ledger::{Blank, Ledger};

/// A set of frames: those that are free. Frames are counted from 0.
///
/// Contracts see it as a list that says of each frame whether it is free. A step of a call is a look at one word of the set, or a
/// write of one.
#[derive(Drop)]
pub struct Free {
    nodes: BitSet,
    frames: u32,
    count: u32,
}

impl Model for Free {
    ghost use Rattle.std.specs.Prelude.{List, Bool};
    ghost use Rattle.buddy_extents.specs.Blocks.{free_in, IsFree};

    ghost Value = { List Bool };

    ghost view = { λ f. free_in f.nodes f.frames };

    ghost invariant = { λ f. IsFree f.nodes f.frames f.count };
}

/// The order of the blocks of a size.
fn order_of_size(size: Size) -> u32
    ensures order { result ≡ 3 * size }
    ensures most { result ≤ 9 }
{
    3 * u32::from(size.level())
}

impl Free {
    /// All of this number of frames, a multiple of 512 and at most 32,768.
    pub fn create(alloc: Global, frames: u32) -> Result<Free, NoMemory>
        requires whole { frames % 512 ≡ 0 }
        requires most { frames ≤ most_frames }
        ensures { IfOk result (λ free. free ≡ replicate frames true) }
    {
        let mut nodes = BitSet::create(alloc, NODES)?;
        put_all_in::<Brand>(&mut nodes, frames, Blank::new(1));
        Ok(Free {
            nodes,
            frames,
            count: frames,
        })
    }

    /// Takes the chosen extent of this size out of the set, and says its first frame.
    ///
    /// The choice is the lowest frames of the lowest block of the least order that has one and holds the size. There is none where
    /// no extent of the size is free.
    pub fn take<L: Ledger>(&mut self, size: Size, steps: &mut Steps<L>) -> Option<u32>
        requires steps { steps.old < 2 ^ 32 }
        ensures chosen { result ≡ choice self.old size }
        ensures taken { MatchOption result (self.new ≡ self.old)
            (λ first. self.new ≡ with_range self.old first (8 ^ size) false) }
        ensures cost { steps.new ≤ steps.old + 128 }
    {
        let order = order_of_size(size);
        let node = self.nodes.first_from(first_node(order), steps)?;
        let whole = order_of(node);
        let first = first_frame(whole, node);
        self.nodes.remove(node, steps);
        cut(&mut self.nodes, first, whole, order, steps);
        self.count -= size.pages();
        Some(first)
    }

    /// Puts an extent of frames into the set, of which none is in.
    pub fn give<L: Ledger>(&mut self, extent: Extent, steps: &mut Steps<L>)
        requires aligned { IsExtent extent.size extent.first }
        requires within { extent.first + 8 ^ extent.size ≤ length self.old }
        requires taken { (frame : ℕ) → extent.first ≤ frame → frame < extent.first + 8 ^ extent.size
            → slice_index_or self.old frame false ≡ false }
        requires steps { steps.old < 2 ^ 32 }
        ensures given { self.new ≡ with_range self.old extent.first (8 ^ extent.size) true }
        ensures cost { steps.new ≤ steps.old + 128 }
    {
        let order = order_of_size(extent.size);
        put_in(&mut self.nodes, order, extent.first, steps);
        self.count += extent.size.pages();
    }

    /// Whether a taking of this size finds an extent.
    pub fn has<L: Ledger>(&self, size: Size, steps: &mut Steps<L>) -> bool
        requires { steps.old < 2 ^ 32 }
        ensures has { result ≡ is_some (choice self.now size) }
        ensures cost { steps.new ≤ steps.old + 16 }
    {
        let order = order_of_size(size);
        self.nodes.first_from(first_node(order), steps).is_some()
    }

    /// How many frames are free.
    pub fn count(&self) -> u32
        ensures { result ≡ count_by (λ free. free) self.now }
    {
        self.count
    }
}
