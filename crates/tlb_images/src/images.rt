//! The images of all processors on one space.

ghost use Rattle.std.specs.Prelude.{All, ◌≡◌, ◌+◌, ◌%◌, ◌^◌, ◌<◌, ◌≤◌, [], ◌∷◌, ◌-◌, ℕ, Bool, Some, false, not, ◌||◌, filter, length, map, replicate, slice_index, slice_index_or, slice_set, IfOk};
ghost use Rattle.std.specs.Fn.{FnReturnsAt};
ghost use Rattle.pager_model.specs.Bounds.{most_actors};
ghost use Rattle.pager_model.specs.declared.tile.Tile.{Tile as Item};
ghost use Rattle.pager_model.specs.Images.{image_capacity, is_in_image, touched};
ghost use Rattle.tlb_images.specs.Counted.{AreCounted, remainders, class_count, HasCounts, AreBelow, Recounts, NoneBegins};
ghost use Rattle.tlb_images.specs.Image.{AnswersTest, begins_in};

use crate::image::{Image, any_begins_in, begins_in};
use pager_model::{NoMemory, PageRange, Tile};
use std::alloc::Global;
use std::marker::Model;

/// How many remainders of pages are told apart.
const REMAINDERS: u32 = 32768;

/// The images of some processors on one space, each at its processor's place.
///
/// How many of their tiles begin at pages of each remainder is counted. So most pages and ranges that no tile begins at are known without a look
/// at any image, and a change of the pages costs no more with many processors than with one.
#[derive(Drop)]
pub struct Images {
    images: Vec<Image>,
    begun: Vec<u16>,
}

impl Model for Images {
    ghost use Rattle.std.specs.Prelude.{List};
    ghost use Rattle.pager_model.specs.declared.tile.Tile.{Tile};
    ghost use Rattle.tlb_images.specs.Counted.{AreCounted};

    ghost Value = { List (List Tile) };

    ghost view = { λ i. i.images.items };

    ghost invariant = { λ i. AreCounted i.begun.items i.images.items };
}

impl Images {
    /// An image without a tile for each of so many processors.
    pub fn create(alloc: Global, processors: u32) -> Result<Images, NoMemory>
        requires { processors ≤ most_actors }
        ensures { IfOk result (λ images. images ≡ replicate processors []) }
    {
        let mut images = Vec::with_capacity(alloc, processors as usize)?;
        for _ in 0..processors {
            images.push(Image::create(alloc)?)?;
        }
        let begun = vec![in alloc; 0; REMAINDERS as usize]?;
        Ok(Images { images, begun })
    }

    /// Whether a page's tile, where it has one, stands in the processor's image: an access to the page is a hit then.
    pub fn has(&self, processor: u32, tile: Option<Tile>) -> bool
        requires { processor < length self.now }
        ensures { result ≡ is_in_image (slice_index_or self.now processor []) tile }
    {
        self.images[processor as usize].has(tile)
    }

    /// The processor used the tile: it comes to the front of its image, without its earlier place, and the one that was used least recently makes room
    /// where it has to. Tells whether the tile stood there, which makes the access a hit.
    pub fn touch(&mut self, processor: u32, tile: Tile) -> bool
        requires { processor < length self.old }
        ensures touched { self.new ≡ slice_set self.old processor (touched tile (slice_index_or self.old processor [])) }
        ensures hit { result ≡ is_in_image (slice_index_or self.old processor []) (Some tile) }
    {
        let image = &mut self.images[processor as usize];
        touch_in(&mut self.begun, image, tile)
    }

    /// Each image keeps the tiles that pass the test, in their order.
    pub fn retain<F: Fn(&Tile) -> bool>(&mut self, is_tile: F)
        requires callable { F.IsAlwaysCallable is_tile }
        ensures { (test : Item → Bool) → AnswersTest (FnReturnsAt F.Fn is_tile) test → self.new ≡ map (filter test) self.old }
    {
        retain_each(&mut self.begun, &mut self.images, is_tile);
    }

    /// Each image keeps the tiles that begin outside of a range, which nothing is asked about, and of the others those that pass the test, in their
    /// order.
    pub fn retain_in<F: Fn(&Tile) -> bool>(&mut self, range: PageRange, is_tile: F)
        requires callable { F.IsAlwaysCallable is_tile }
        ensures { (test : Item → Bool) → AnswersTest (FnReturnsAt F.Fn is_tile) test
            → self.new ≡ map (filter (λ t. not (begins_in range t) || test t)) self.old }
    {
        if self.may_begin_in(range) {
            retain_each_in(&mut self.begun, &mut self.images, range, is_tile);
        }
    }

    /// Whether a tile may begin in a range. Where it is too long to tell by remainders, one may.
    fn may_begin_in(&self, range: PageRange) -> bool
        ensures { result ≡ false → NoneBegins range self.now }
    {
        let first = range.first % REMAINDERS;
        if range.length > REMAINDERS - first {
            return true;
        }
        any(&self.begun[first as usize..(first + range.length) as usize])
    }
}

/// Whether one of the counts is above zero. It looks at all of them, since without an earlier way out several are looked at at once.
fn any(counts: &[u16]) -> bool
    ensures { result ≡ false → All (λ n. n ≡ 0) counts.now }
{
    let mut bits = 0;
    for count in counts {
        bits |= *count;
    }
    bits != 0
}

/// The remainder of the page that a tile begins at.
fn remainder(tile: &Tile) -> usize
    ensures { result ≡ tile.now.extent.first % remainders }
{
    (tile.extent.first % REMAINDERS) as usize
}

/// Each image keeps the tiles that pass the test, in their order. Where all of them pass, it is asked once of each, and nothing is written.
fn retain_each<F: Fn(&Tile) -> bool>(begun: &mut [u16], images: &mut [Image], is_tile: F)
    requires callable { F.IsAlwaysCallable is_tile }
    requires counted { AreCounted begun.old images.old }
    ensures kept { (test : Item → Bool) → AnswersTest (FnReturnsAt F.Fn is_tile) test → images.new ≡ map (filter test) images.old }
    ensures counted { AreCounted begun.new images.new }
{
    for image in images.iter_mut() {
        if !image.tiles().iter().all(|tile| is_tile(tile)) {
            sift(begun, image, |tile| is_tile(tile));
        }
    }
}

/// Each image keeps the tiles that begin outside of a range, and of the others those that pass the test, in their order.
fn retain_each_in<F: Fn(&Tile) -> bool>(
    begun: &mut [u16],
    images: &mut [Image],
    range: PageRange,
    is_tile: F,
)
    requires callable { F.IsAlwaysCallable is_tile }
    requires counted { AreCounted begun.old images.old }
    ensures kept { (test : Item → Bool) → AnswersTest (FnReturnsAt F.Fn is_tile) test
        → images.new ≡ map (filter (λ t. not (begins_in range t) || test t)) images.old }
    ensures counted { AreCounted begun.new images.new }
{
    for image in images.iter_mut() {
        if any_begins_in(image.tiles(), range) {
            sift(
                begun,
                image,
                |tile|
                    requires { F.IsAlwaysCallable is_tile }
                    ensures { (test : Item → Bool) → AnswersTest (FnReturnsAt F.Fn is_tile) test
                        → result ≡ (not (begins_in range tile.now) || test tile.now) }
                { !begins_in(tile, range) || is_tile(tile) },
            );
        }
    }
}

/// The image keeps the tiles that pass a test, and those that go are counted no more.
fn sift<F: Fn(&Tile) -> bool>(begun: &mut [u16], image: &mut Image, keeps: F)
    requires callable { F.IsAlwaysCallable keeps }
    requires counted { HasCounts begun.old image.old }
    requires room { AreBelow (2 ^ 16) begun.old }
    ensures kept { (test : Item → Bool) → AnswersTest (FnReturnsAt F.Fn keeps) test → image.new ≡ filter test image.old }
    ensures counts { Recounts begun.old begun.new image.old image.new }
    ensures short { length image.new ≤ image_capacity }
{
    uncount_all(begun, image.tiles());
    image.retain(keeps);
    count_all(begun, image.tiles());
}

/// The tile comes to the front of the image, and the counts follow. Tells whether it stood there.
fn touch_in(begun: &mut [u16], image: &mut Image, tile: Tile) -> bool
    requires counted { HasCounts begun.old image.old }
    requires room { AreBelow (2 ^ 16 - 1) begun.old }
    ensures touched { image.new ≡ touched tile image.old }
    ensures hit { result ≡ is_in_image image.old (Some tile) }
    ensures counts { Recounts begun.old begun.new image.old image.new }
{
    if begun[remainder(&tile)] > 0 && image.bring_to_front(&tile) {
        return true;
    }
    put(begun, image, tile);
    false
}

/// Puts a tile to the front of an image in which it doesn't stand. It is counted, and the one that makes room for it is counted no more.
fn put(begun: &mut [u16], image: &mut Image, tile: Tile)
    requires absent { is_in_image image.old (Some tile) ≡ false }
    requires counted { HasCounts begun.old image.old }
    requires room { AreBelow (2 ^ 16 - 1) begun.old }
    ensures touched { image.new ≡ touched tile image.old }
    ensures counts { Recounts begun.old begun.new image.old image.new }
{
    let gone = image.put(tile);
    count(begun, &tile);
    if let Some(last) = gone {
        uncount(begun, &last);
    }
}

/// These tiles are counted no more.
fn uncount_all(begun: &mut [u16], tiles: &[Tile])
    requires { HasCounts begun.old tiles.now }
    ensures { Recounts begun.old begun.new tiles.now [] }
{
    for tile in tiles {
        uncount(begun, tile);
    }
}

/// These tiles are counted.
fn count_all(begun: &mut [u16], tiles: &[Tile])
    requires all { length begun.old ≡ remainders }
    requires room { (r : ℕ) → r < remainders → slice_index begun.old r + class_count r tiles.now < 2 ^ 16 }
    ensures { Recounts begun.old begun.new [] tiles.now }
{
    for tile in tiles {
        count(begun, tile);
    }
}

/// The tile is counted no more.
fn uncount(begun: &mut [u16], tile: &Tile)
    requires { HasCounts begun.old (tile.now ∷ []) }
    ensures { Recounts begun.old begun.new (tile.now ∷ []) [] }
{
    begun[remainder(tile)] -= 1;
}

/// The tile is counted.
fn count(begun: &mut [u16], tile: &Tile)
    requires all { length begun.old ≡ remainders }
    requires room { slice_index begun.old (tile.now.extent.first % remainders) < 2 ^ 16 - 1 }
    ensures { Recounts begun.old begun.new [] (tile.now ∷ []) }
{
    begun[remainder(tile)] += 1;
}
