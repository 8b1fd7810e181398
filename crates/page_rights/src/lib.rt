//! The rights that a protect gave the pages of a space, where it gave any.
//!
//! They are kept by blocks of 512 pages, as a tree of two levels: a block of which all pages have the same rights is one value, and
//! one of which a part has others has a leaf with a place for each page. So `set` writes a byte for each block that its range covers
//! whole, at most 2,048 side by side, and leaves of the two blocks at the ends alone; `get` looks at a block and at one place.
//!
//! `create` takes all memory, room for a leaf of each block, and writes none of it but the blocks: leaves are written as blocks first
//! need them.
#![tactic(auto)]

ghost use Rattle.std.specs.Prelude.{◌≡◌, ℕ, ◌+◌, ◌*◌, ◌/◌, ◌%◌, ◌<◌, ◌≤◌, ◌&&◌, ◌==◌, nat_le, nat_lt, true, length, replicate, Some, None, IfOk, IfSome, IfNone, slice_index_or, unwrap_or, vec_capacity, if◌then◌else◌};
ghost use Rattle.pager_model.specs.Bounds.{space_pages};
ghost use Rattle.pager_model.specs.Regions.{in_range};
ghost use Rattle.page_rights.specs.Kept.{with_leaf};
ghost use Rattle.page_rights.specs.Rights.{leaf_of, rights_of};
ghost use Rattle.page_rights.specs.declared.block.Block.TheVariants.{Unset};

mod block;

use block::Block;
use pager_model::{LARGEST, NoMemory, Rights};
use std::alloc::Global;
use std::marker::Model;

/// The blocks of a space.
const BLOCKS: usize = 2048;

/// For each page of a space the rights that it has of its own, or none.
#[derive(Drop)]
pub struct PageRights {
    blocks: Vec<Block>,
    /// Of each block the number of its leaf, where it has one. It keeps that for good.
    numbers: Vec<Option<u32>>,
    /// Of each page of a block its rights, in the order in which blocks first needed it.
    leaves: Vec<[Option<Rights>; 512]>,
}

impl Model for PageRights {
    ghost use Rattle.std.specs.Prelude.{◌≤◌, vec_capacity};
    ghost use Rattle.page_rights.specs.Rights.{RightsTree};
    ghost use Rattle.page_rights.specs.Kept.{IsTree};

    ghost Value = { RightsTree };

    ghost view = { λ r. record { blocks = r.blocks.items; numbers = r.numbers.items; leaves = r.leaves.items } };

    ghost invariant = { λ r. IsTree (record { blocks = r.blocks.items; numbers = r.numbers.items; leaves = r.leaves.items })
        × (2048 ≤ vec_capacity r.leaves) };
}

impl PageRights {
    /// No page has rights of its own.
    pub fn create(alloc: Global) -> Result<PageRights, NoMemory>
        ensures { IfOk result (λ none. (p : ℕ) → rights_of none p ≡ None) }
    {
        Ok(PageRights {
            blocks: vec![in alloc; Block::Unset; BLOCKS]?,
            numbers: no_numbers(alloc, BLOCKS)?,
            leaves: Vec::with_capacity(alloc, BLOCKS)?,
        })
    }

    /// The rights of a page.
    pub fn get(&self, page: u32) -> Option<Rights>
        requires { page < space_pages }
        ensures { result ≡ rights_of self.now page }
    {
        let block = page / LARGEST;
        match self.leaf(block) {
            Some(leaf) => self.leaves[leaf as usize][(page % LARGEST) as usize],
            None => self.blocks[block as usize].rights(),
        }
    }

    /// The number of the leaf that says the rights of a block's pages, where they differ.
    fn leaf(&self, block: u32) -> Option<u32>
        requires { block < 2048 }
        ensures { result ≡ leaf_of self.now block }
    {
        match self.blocks[block as usize] {
            Block::Mixed => self.numbers[block as usize],
            _ => None,
        }
    }

    /// Gives the pages of a range these rights, or none.
    pub fn set(&mut self, first: u32, length: u32, rights: Option<Rights>)
        requires { first + length ≤ space_pages }
        ensures { (p : ℕ) → rights_of self.new p ≡ (if in_range first length p then rights else rights_of self.old p) }
    {
        let end = first + length;
        // The blocks from `low` on and before `high` lie in the range whole.
        let low = first.div_ceil(LARGEST);
        let high = end / LARGEST;
        if low > high {
            self.set_part(first, end, rights);
            return;
        }
        self.set_part(first, low * LARGEST, rights);
        self.set_whole(low, high, rights);
        self.set_part(high * LARGEST, end, rights);
    }

    /// Gives all pages of the blocks from one on and before another these rights, or none.
    fn set_whole(&mut self, low: u32, high: u32, rights: Option<Rights>)
        requires order { low ≤ high }
        requires within { high ≤ 2048 }
        ensures { (p : ℕ) → rights_of self.new p ≡ (if nat_le low (p / 512) && nat_lt (p / 512) high then rights else rights_of self.old p) }
    {
        fill(&mut self.blocks, low, high, Block::uniform(rights));
    }

    /// Gives the pages from one on and before another, which lie in a block, these rights, or none.
    fn set_part(&mut self, first: u32, end: u32, rights: Option<Rights>)
        requires order { first ≤ end }
        requires block { end ≤ first / 512 * 512 + 512 }
        requires within { end ≤ space_pages }
        ensures { (p : ℕ) → rights_of self.new p ≡ (if nat_le first p && nat_lt p end then rights else rights_of self.old p) }
    {
        let block = first / LARGEST;
        // So a block whose pages never had rights needs no leaf to forget them.
        if first == end || self.is_uniform(block, rights) {
            return;
        }
        let leaf = self.mix(block);
        let start = block * LARGEST;
        set_places(
            &mut self.leaves[leaf as usize],
            first - start,
            end - start,
            rights,
        );
    }

    /// Whether all pages of a block have these rights by one value.
    fn is_uniform(&self, block: u32, rights: Option<Rights>) -> bool
        requires { block < 2048 }
        ensures { result ≡ true → (p : ℕ) → p / 512 ≡ block → rights_of self.now p ≡ rights }
    {
        self.blocks[block as usize] == Block::uniform(rights)
    }

    /// The number of a block's leaf, which says the rights of its pages from now on.
    fn mix(&mut self, block: u32) -> u32
        requires { block < 2048 }
        ensures mixed { leaf_of self.new block ≡ Some result }
        ensures same { (p : ℕ) → rights_of self.new p ≡ rights_of self.old p }
    {
        if let Some(leaf) = self.leaf(block) {
            return leaf;
        }
        let rights = self.blocks[block as usize].rights();
        let number = self.numbers[block as usize];
        let leaf = put_leaf(&mut self.leaves, number, [rights; 512]);
        self.numbers[block as usize] = Some(leaf);
        self.blocks[block as usize] = Block::Mixed;
        leaf
    }
}

/// That none of so many blocks has a leaf.
fn no_numbers(alloc: Global, blocks: usize) -> Result<Vec<Option<u32>>, NoMemory>
    ensures { IfOk result (λ numbers. numbers.items ≡ replicate blocks None) }
{
    Ok(vec![in alloc; None; blocks]?)
}

/// Writes this at the blocks from one on and before another.
fn fill(blocks: &mut Vec<Block>, low: u32, high: u32, block: Block)
    requires order { low ≤ high }
    requires within { high ≤ length blocks.old.items }
    ensures length { length blocks.new.items ≡ length blocks.old.items }
    ensures blocks { (b : ℕ) → slice_index_or blocks.new.items b Unset
        ≡ (if nat_le low b && nat_lt b high then block else slice_index_or blocks.old.items b Unset) }
{
    blocks[low as usize..high as usize].fill(block);
}

/// Writes these rights, or none, at the places of a leaf from one on and before an end.
fn set_places(leaf: &mut [Option<Rights>; 512], from: u32, end: u32, rights: Option<Rights>)
    requires range { from ≤ end }
    requires within { end ≤ 512 }
    ensures { (i : ℕ) → slice_index_or leaf.new i None ≡ (if nat_le from i && nat_lt i end then rights else slice_index_or leaf.old i None) }
{
    leaf[from as usize..end as usize].fill(rights);
}

/// Writes a leaf at its number, or as a new one where it has none yet, and answers its number.
fn put_leaf(
    leaves: &mut Vec<[Option<Rights>; 512]>,
    number: Option<u32>,
    leaf: [Option<Rights>; 512],
) -> u32
    requires known { IfSome number (λ n. n < length leaves.old.items) }
    requires room { IfNone number (length leaves.old.items < 2048) }
    requires capacity { 2048 ≤ vec_capacity leaves.old }
    ensures number { result ≡ unwrap_or number (length leaves.old.items) }
    ensures leaves { leaves.new.items ≡ with_leaf number leaf leaves.old.items }
    ensures capacity { 2048 ≤ vec_capacity leaves.new }
{
    match number {
        Some(number) => {
            leaves[number as usize] = leaf;
            number
        }
        None => {
            let number = leaves.len() as u32;
            let Ok(()) = leaves.push(leaf) else {
                unreachable!()
            };
            number
        }
    }
}
