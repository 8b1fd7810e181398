//! The stacks of all spaces, and the misses of a history at each capacity.

ghost use Rattle.std.specs.Prelude.{◌≡◌, ℕ, ◌+◌, ◌-◌, ◌<◌, ◌≤◌, ◌^◌, [], ◌∷◌, ◌++◌, List, Some, length, slice_index, IfOk, IfSome};
ghost use Rattle.std.specs.Fn.{FnReturnsAt};
ghost use Rattle.std.specs.List.{All};
ghost use Rattle.pager_model.specs.Bounds.{most_spaces, space_pages};
ghost use Rattle.pager_model.specs.declared.entry.Entry.{Entry as Item};
ghost use Rattle.pager_model.specs.Legal.{IsLegal, space_at};
ghost use Rattle.pager_model.specs.Settings.{Given};
ghost use Rattle.pager_model.specs.SizeSets.{SizeSet};
ghost use Rattle.miss_curves.specs.Curves.{AnswersAlone, AreCurves, AreLong, base_alone, misses_by};
ghost use Rattle.miss_curves.specs.Rows.{AreStacks, StandEach, StandAfter};
ghost use Rattle.lru_stack.specs.Stacks.{IsBlank, Tells, TellsSame};

use lru_stack::{Stack, Use};
use pager_model::{Entry, NoMemory, Tile};
use std::alloc::Global;
use std::marker::Model;

/// The largest capacity of the curves of a history that is kept.
pub const HISTORY_CAPACITIES: usize = 1024;

/// The largest capacity of the curves of one that is followed as it is made.
pub const STREAM_CAPACITIES: usize = 4096;

/// The misses at each capacity, the first at capacity 1: with the tiles of the run, and with base pages alone.
#[derive(Drop)]
pub struct Curves {
    pub tiles: Vec<u64>,
    pub pages: Vec<u64>,
}

impl Curves {
    /// The memory of curves up to this largest capacity.
    pub fn create(alloc: Global, capacities: usize) -> Result<Curves, NoMemory>
        ensures long { IfOk result (λ c. AreLong capacities c.tiles.items c.pages.items) }
    {
        Ok(Curves {
            tiles: vec![in alloc; 0; capacities]?,
            pages: vec![in alloc; 0; capacities]?,
        })
    }
}

/// Of each space the stack of its tiles, and that of its base pages. Each stack has as many places as the largest capacity.
#[derive(Drop)]
pub struct Stacks {
    tiles: Vec<Stack>,
    pages: Vec<Stack>,
    places: usize,
    entries: u64,
}

impl Model for Stacks {
    ghost use Rattle.miss_curves.specs.Rows.{Rows, AreRows};

    ghost Value = { Rows };

    ghost view = { λ s. record { tiles = s.tiles.items; pages = s.pages.items; places = s.places; entries = s.entries } };

    ghost invariant = { λ s. AreRows (record { tiles = s.tiles.items; pages = s.pages.items; places = s.places; entries = s.entries }) };
}

impl Stacks {
    /// The stacks of so many spaces before any entry, each with so many places.
    pub fn create(alloc: Global, spaces: usize, places: usize) -> Result<Stacks, NoMemory>
        requires spaces { spaces ≤ most_spaces }
        requires places { places ≤ space_pages }
        ensures spaces { IfOk result (λ s. length s.tiles ≡ spaces) }
        ensures places { IfOk result (λ s. s.places ≡ places) }
        ensures unused { IfOk result (λ s. s.entries ≡ 0) }
        ensures stands { IfOk result (λ s. (g : Given) → length g.told ≡ spaces → StandAfter g s []) }
    {
        Ok(Stacks {
            tiles: blank_stacks(alloc, spaces, places)?,
            pages: blank_stacks(alloc, spaces, places)?,
            places,
            entries: 0,
        })
    }

    /// Follows an entry: of its space the tests tell which of the tiles before it, and which of the base pages, are left, and which page was
    /// used. An entry without a space changes nothing.
    pub fn follow<F: Fn(&Tile) -> bool, G: Fn(&Tile) -> bool>(
        &mut self,
        entry: &Entry,
        is_tile: &F,
        used: Option<Use>,
        is_page: &G,
        used_page: Option<Use>,
    )
        requires tests { F.IsAlwaysCallable is_tile.now }
        requires page_tests { G.IsAlwaysCallable is_page.now }
        requires known { IfSome entry.now.space (λ s. s < length self.old.tiles) }
        requires room { self.old.entries < 2 ^ 64 - 1 }
        ensures spaces { length self.new.tiles ≡ length self.old.tiles }
        ensures places { self.new.places ≡ self.old.places }
        ensures entries { self.new.entries ≤ self.old.entries + 1 }
        ensures stands { (g : Given) (history : List Item)
            → IfSome entry.now.space (λ s. Tells (FnReturnsAt F.Fn is_tile.now) g.sizes (space_at g history s) entry.now used
            × Tells (FnReturnsAt G.Fn is_page.now) base_alone (space_at g history s) entry.now used_page)
            → StandAfter g self.old history → StandAfter g self.new (history ++ entry.now ∷ []) }
    {
        if let Some(space) = entry.space {
            let space = space as usize;
            self.tiles[space].follow(is_tile, used);
            self.pages[space].follow(is_page, used_page);
            self.entries += 1;
        }
    }

    /// Follows an entry that takes no tile away, and which page was used.
    pub fn follow_same(&mut self, entry: &Entry, used: Option<Use>, used_page: Option<Use>)
        requires known { IfSome entry.now.space (λ s. s < length self.old.tiles) }
        requires room { self.old.entries < 2 ^ 64 - 1 }
        ensures spaces { length self.new.tiles ≡ length self.old.tiles }
        ensures places { self.new.places ≡ self.old.places }
        ensures entries { self.new.entries ≤ self.old.entries + 1 }
        ensures stands { (g : Given) (history : List Item)
            → IfSome entry.now.space (λ s. TellsSame g.sizes (space_at g history s) entry.now used
            × TellsSame base_alone (space_at g history s) entry.now used_page)
            → StandAfter g self.old history → StandAfter g self.new (history ++ entry.now ∷ []) }
    {
        if let Some(space) = entry.space {
            let space = space as usize;
            self.tiles[space].follow_same(used);
            self.pages[space].follow_same(used_page);
            self.entries += 1;
        }
    }

    /// The misses at each capacity, in memory of as many places as a stack has.
    pub fn curves(&self, memory: Curves) -> Curves
        requires long { AreLong self.now.places memory.tiles.items memory.pages.items }
        requires usual { 128 ≤ self.now.places }
        ensures long { AreLong self.now.places result.tiles.items result.pages.items }
        ensures curves { (g : Given) (history : List Item) → StandAfter g self.now history → IsLegal g history → AnswersAlone history
            → AreCurves self.now.places g history result.tiles.items result.pages.items }
    {
        Curves {
            tiles: curve_of(memory.tiles, &self.tiles),
            pages: curve_of(memory.pages, &self.pages),
        }
    }
}

/// So many stacks of so many holes.
fn blank_stacks(alloc: Global, spaces: usize, places: usize) -> Result<Vec<Stack>, NoMemory>
    requires spaces { spaces ≤ most_spaces }
    requires places { places ≤ space_pages }
    ensures spaces { IfOk result (λ stacks. length stacks.items ≡ spaces) }
    ensures blank { IfOk result (λ stacks. All (λ s. IsBlank places s) stacks.items) }
{
    let mut stacks = Vec::with_capacity(alloc, spaces)?;
    for _ in 0..spaces {
        stacks.push(Stack::create(alloc, places)?)?;
    }
    Ok(stacks)
}

/// The misses of some stacks at each capacity, in memory of as many places as each has.
fn curve_of(memory: Vec<u64>, stacks: &[Stack]) -> Vec<u64>
    requires stacks { AreStacks (length stacks.now) (length memory.items) (2 ^ 64 - 1) stacks.now }
    ensures capacities { length result.items ≡ length memory.items }
    ensures misses { (z : SizeSet) (g : Given) (history : List Item) → StandEach z g stacks.now history
        → (k : ℕ) → k < length memory.items → slice_index result.items k ≡ misses_by z g history (k + 1) }
{
    let mut curve = memory;
    curve.fill(0);
    for stack in stacks {
        stack.add_to(&mut curve);
    }
    curve
}
