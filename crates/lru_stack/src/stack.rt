//! One row of places: the images of every capacity at once.

ghost use Rattle.std.specs.Prelude.{◌≡◌, ℕ, ◌+◌, ◌-◌, ◌<◌, ◌≤◌, ◌^◌, Bool, false, Some, None, Option, length, map, count_by, sum, take, slice_index, IfOk, IfSome};
ghost use Rattle.std.specs.Fn.{FnReturnsAt};
ghost use Rattle.std.specs.List.{position, All};
ghost use Rattle.pager_model.specs.Bounds.{space_pages};
ghost use Rattle.pager_model.specs.declared.tile.Tile.{Tile};
ghost use Rattle.pager_model.specs.declared.entry.Entry.{Entry};
ghost use Rattle.pager_model.specs.SizeSets.{SizeSet};
ghost use Rattle.pager_model.specs.SpaceStates.{SpaceState, space_after};
ghost use Rattle.lru_stack.specs.Followers.{Follower, follow};
ghost use Rattle.lru_stack.specs.Stacks.{is_at, kept_at, left_by, moved_down, hole_at, shifted, found_at, position_of, kept_after, missed_at, AreDistinct, IsBlank, Stands, Passes, AnswersFor, Tells, TellsSame};

use pager_model::{NoMemory, Tile};
use std::alloc::Global;
use std::marker::Model;

/// A use of a page: its tile before it and after it.
#[derive(Clone, Copy, Debug)]
pub struct Use {
    pub before: Option<Tile>,
    pub after: Tile,
}

/// Whether the tile stands at the place.
fn is_at(tile: &Tile, place: &Option<Tile>) -> bool
    ensures { result ≡ is_at tile.now place.now }
{
    match place {
        Some(other) => tile == other,
        None => false,
    }
}

/// The tile goes to the first place, what stood there to the next one, and so on until a hole takes it.
fn push_front(places: &mut [Option<Tile>], tile: Tile)
    ensures { places.new ≡ shifted (Some tile) places.old }
{
    let mut carried = tile;
    for place in places.iter_mut() {
        match place.replace(carried) {
            Some(next) => carried = next,
            None => return,
        }
    }
}

/// Makes a hole of a place, if there is one.
fn make_hole(places: &mut [Option<Tile>], place: Option<usize>)
    requires { IfSome place (λ p. p < length places.old) }
    ensures { places.new ≡ hole_at place places.old }
{
    if let Some(place) = place {
        places[place] = None;
    }
}

/// Makes a hole of the one place where the tile stands, if it does.
fn take_out(places: &mut [Option<Tile>], tile: &Tile)
    requires distinct { AreDistinct places.old }
    ensures { places.new ≡ map (left_by tile.now) places.old }
{
    let place = position_of(places, tile);
    make_hole(places, place);
}

/// Takes out the tile of a use. Where it was the same before the use, it stands at the place that was found, and isn't searched for again.
fn take_out_used(places: &mut [Option<Tile>], used: &Use, place: Option<usize>)
    requires distinct { AreDistinct places.old }
    requires found { place ≡ position_of used.now.before places.old }
    ensures { places.new ≡ map (left_by used.now.after) places.old }
{
    if is_at(&used.after, &used.before) {
        make_hole(places, place);
    } else {
        take_out(places, &used.after);
    }
}

/// Makes a hole of a place whose tile fails the test.
fn keep<F: Fn(&Tile) -> bool>(place: &mut Option<Tile>, is_tile: &F)
    requires callable { F.IsAlwaysCallable is_tile.now }
    ensures kept { (was test : Tile → Bool) → AnswersFor (FnReturnsAt F.Fn is_tile.now) was test → Passes was place.old → place.new ≡ kept_at test place.old }
    ensures own { IfSome place.new (λ t. place.old ≡ Some t) }
{
    if let Some(tile) = *place {
        if !is_tile(&tile) {
            *place = None;
        }
    }
}

/// Makes a hole of each place whose tile fails the test.
fn retain<F: Fn(&Tile) -> bool>(places: &mut [Option<Tile>], is_tile: &F)
    requires callable { F.IsAlwaysCallable is_tile.now }
    ensures kept { (was test : Tile → Bool) → AnswersFor (FnReturnsAt F.Fn is_tile.now) was test → All (Passes was) places.old
        → places.new ≡ map (kept_at test) places.old }
    ensures fewer { (t : Tile) → count_by (is_at t) places.new ≤ count_by (is_at t) places.old }
{
    for place in places.iter_mut() {
        keep(place, is_tile);
    }
}

/// Where the tile stands, if it does.
fn position_of(places: &[Option<Tile>], tile: &Tile) -> Option<usize>
    ensures { result ≡ position (is_at tile.now) places.now }
{
    places.iter().position(|place| is_at(tile, place))
}

/// Where the tile stands, if there is one and it does.
fn position_of_any(places: &[Option<Tile>], tile: Option<Tile>) -> Option<usize>
    ensures { result ≡ position_of tile places.now }
{
    match tile {
        Some(tile) => position_of(places, &tile),
        None => None,
    }
}

/// What an entry that used a page does to a row: what is no tile any more leaves a hole, and the tile that was used comes to the front. Tells
/// where its tile stood.
fn follow_use<F: Fn(&Tile) -> bool>(
    places: &mut [Option<Tile>],
    is_tile: &F,
    used: &Use,
) -> Option<usize>
    requires callable { F.IsAlwaysCallable is_tile.now }
    requires distinct { AreDistinct places.old }
    ensures found { result ≡ position_of used.now.before places.old }
    ensures after { (was test : Tile → Bool) → AnswersFor (FnReturnsAt F.Fn is_tile.now) was test → All (Passes was) places.old
        → places.new ≡ moved_down used.now.after (Some used.now.after) (map (kept_at test) places.old) }
    ensures distinct { AreDistinct places.new }
{
    let place = position_of_any(places, used.before);
    take_out_used(places, used, place);
    retain(places, is_tile);
    push_front(places, used.after);
    place
}

/// The same of an entry after which every tile is one still.
fn follow_use_same(places: &mut [Option<Tile>], used: &Use) -> Option<usize>
    requires distinct { AreDistinct places.old }
    ensures found { result ≡ position_of used.now.before places.old }
    ensures after { places.new ≡ moved_down used.now.after (Some used.now.after) places.old }
    ensures distinct { AreDistinct places.new }
{
    let place = position_of_any(places, used.before);
    take_out_used(places, used, place);
    push_front(places, used.after);
    place
}

/// Counts a use that found its tile at a place, where it did.
fn count(found: &mut [u64], place: Option<usize>)
    requires within { IfSome place (λ p. p < length found.old) }
    requires room { sum found.old < 2 ^ 64 - 1 }
    ensures counted { found.new ≡ found_at place found.old }
    ensures more { sum found.new ≤ sum found.old + 1 }
{
    if let Some(place) = place {
        found[place] += 1;
    }
}

/// The images of every capacity up to the number of places, in one stack, and the uses that found their tile at each place.
#[derive(Drop)]
pub struct Stack {
    places: Vec<Option<Tile>>,
    found: Vec<u64>,
    uses: u64,
}

impl Model for Stack {
    ghost use Rattle.lru_stack.specs.Stacks.{Kept, IsKept};

    ghost Value = { Kept };

    ghost view = { λ s. record { places = s.places.items; found = s.found.items; uses = s.uses } };

    ghost invariant = { λ s. IsKept (record { places = s.places.items; found = s.found.items; uses = s.uses }) };
}

impl Stack {
    /// A stack of so many places, which are holes.
    pub fn create(alloc: Global, places: usize) -> Result<Stack, NoMemory>
        requires { places ≤ space_pages }
        ensures blank { IfOk result (λ s. IsBlank places s) }
    {
        Ok(Stack {
            places: vec![in alloc; None; places]?,
            found: vec![in alloc; 0; places]?,
            uses: 0,
        })
    }

    /// What an entry does: what is no tile any more leaves a hole, and the tile that was used comes to the front.
    fn step<F: Fn(&Tile) -> bool>(&mut self, is_tile: &F, used: Option<Use>)
        requires callable { F.IsAlwaysCallable is_tile.now }
        requires room { self.old.uses < 2 ^ 64 - 1 }
        ensures after { (was test : Tile → Bool) → AnswersFor (FnReturnsAt F.Fn is_tile.now) was test → All (Passes was) self.old.places
            → self.new ≡ kept_after test used self.old }
        ensures long { length self.old.found ≡ length self.old.places }
        ensures places { length self.new.places ≡ length self.old.places }
        ensures uses { self.new.uses ≤ self.old.uses + 1 }
    {
        match used {
            Some(used) => {
                let place = follow_use(&mut self.places, is_tile, &used);
                count(&mut self.found, place);
                self.uses += 1;
            }
            None => retain(&mut self.places, is_tile),
        }
    }

    /// An entry of the space: the test tells which of the tiles before it are left, and which page was used.
    pub fn follow<F: Fn(&Tile) -> bool>(&mut self, is_tile: &F, used: Option<Use>)
        requires callable { F.IsAlwaysCallable is_tile.now }
        requires room { self.old.uses < 2 ^ 64 - 1 }
        ensures places { length self.new.places ≡ length self.old.places }
        ensures uses { self.new.uses ≤ self.old.uses + 1 }
        ensures stands { (z : SizeSet) (st : SpaceState) (e : Entry) (followers : ℕ → Follower) → Tells (FnReturnsAt F.Fn is_tile.now) z st e used
            → Stands z self.old st followers
            → Stands z self.new (space_after st e) (λ capacity. follow z capacity (followers capacity) e) }
    {
        self.step(is_tile, used)
    }

    /// Follows an entry that takes no tile away, so that only the used one is looked at.
    pub fn follow_same(&mut self, used: Option<Use>)
        requires room { self.old.uses < 2 ^ 64 - 1 }
        ensures places { length self.new.places ≡ length self.old.places }
        ensures uses { self.new.uses ≤ self.old.uses + 1 }
        ensures stands { (z : SizeSet) (st : SpaceState) (e : Entry) (followers : ℕ → Follower) → TellsSame z st e used
            → Stands z self.old st followers
            → Stands z self.new (space_after st e) (λ capacity. follow z capacity (followers capacity) e) }
    {
        self.step_same(used)
    }

    /// What an entry does after which every tile is one still.
    fn step_same(&mut self, used: Option<Use>)
        requires room { self.old.uses < 2 ^ 64 - 1 }
        ensures after { (test : Tile → Bool) → map (kept_at test) self.old.places ≡ self.old.places → self.new ≡ kept_after test used self.old }
        ensures long { length self.old.found ≡ length self.old.places }
        ensures places { length self.new.places ≡ length self.old.places }
        ensures uses { self.new.uses ≤ self.old.uses + 1 }
    {
        if let Some(used) = used {
            let place = follow_use_same(&mut self.places, &used);
            count(&mut self.found, place);
            self.uses += 1;
        } else {
            let _ = &self.uses;
        }
    }

    /// Adds the misses at each capacity from 1 up to the number of places.
    pub fn add_to(&self, curve: &mut [u64])
        requires long { length curve.old ≡ length self.now.places }
        requires fits { (k : ℕ) → k < length curve.old → slice_index curve.old k + self.now.uses < 2 ^ 64 }
        ensures long { length curve.new ≡ length curve.old }
        ensures added { (k : ℕ) → k < length curve.old → slice_index curve.new k ≡ slice_index curve.old k + missed_at k self.now }
    {
        add_misses(&self.found, self.uses, curve)
    }
}

/// Adds for each place how many uses found their tile neither there nor before.
fn add_misses(found: &[u64], uses: u64, curve: &mut [u64])
    requires within { sum found.now ≤ uses }
    requires long { length curve.old ≡ length found.now }
    requires fits { (k : ℕ) → k < length curve.old → slice_index curve.old k + uses < 2 ^ 64 }
    ensures long { length curve.new ≡ length curve.old }
    ensures added { (k : ℕ) → k < length curve.old → slice_index curve.new k ≡ slice_index curve.old k + (uses - sum (take (k + 1) found.now)) }
{
    let mut missed = uses;
    for (place, count) in found.iter().enumerate() {
        missed -= *count;
        curve[place] += missed;
    }
}
