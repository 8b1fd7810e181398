//! What tiles are, and what becomes of them: each is a function that does nothing, whose contract the gate proves.

ghost use Rattle.std.specs.Prelude.{◌≡◌, ℕ, ◌+◌, ◌%◌, ◌^◌, ◌<◌, Option, Some, option_map, true};
ghost use Rattle.pager_model.specs.declared.tile.Mapping.{Mapping};
ghost use Rattle.pager_model.specs.declared.tile.Tile.{Tile};
ghost use Rattle.pager_model.specs.Extents.{extent_start};
ghost use Rattle.pager_model.specs.SizeSets.{SizeSet};
ghost use Rattle.pager_model.specs.Tiles.{IsTile, tile_of, tile_in, is_tile_in, cut_to, promotions_in, demotions_in};
ghost use Rattle.tiles.specs.Cleared.{Clears};
ghost use Rattle.tiles.specs.Parts.{IsPart};
ghost use Rattle.tiles.specs.Sized.{large_tiles_meeting_in};

/// The tile of a page is an eligible extent round it that lies in no larger one, and each such extent is the tile of its pages.
pub fn a_tile_is_a_largest_eligible_extent()
    ensures largest { (pages : ℕ → Option Mapping) (page : ℕ) (t : Tile) → tile_of pages page ≡ Some t
        → IsTile pages t × (extent_start t.extent.size page ≡ t.extent.first) }
    ensures conversely { (pages : ℕ → Option Mapping) (page : ℕ) (t : Tile) → IsTile pages t
        → extent_start t.extent.size page ≡ t.extent.first → tile_of pages page ≡ Some t }
{}

/// The tile of a page by some sizes is a part of its tile by all four: the extent round the page of the largest of these sizes that fits.
/// So the tiles by these sizes are just such parts.
pub fn a_tile_is_cut_to_the_sizes()
    ensures cut { (z : SizeSet) (pages : ℕ → Option Mapping) (page : ℕ) → tile_in z pages page ≡ option_map (cut_to z page) (tile_of pages page) }
    ensures parts { (z : SizeSet) (pages : ℕ → Option Mapping) (t : Tile) → is_tile_in z pages t ≡ true → IsPart z pages t }
    ensures all_parts { (z : SizeSet) (pages : ℕ → Option Mapping) (t : Tile) → IsPart z pages t → is_tile_in z pages t ≡ true }
{}

/// Two tiles with a page in common are one.
pub fn two_tiles_share_no_page()
    ensures { (pages : ℕ → Option Mapping) (page : ℕ) (t u : Tile) → IsTile pages t → IsTile pages u
        → extent_start t.extent.size page ≡ t.extent.first → extent_start u.extent.size page ≡ u.extent.first → t ≡ u }
{}

/// Each page of a tile is resident with the tile's rights and dirty flag, all in one region, in frames that go on from the tile's, which
/// is a multiple of the tile's length.
pub fn a_tile_is_uniform()
    ensures aligned { (pages : ℕ → Option Mapping) (t : Tile) → IsTile pages t → t.frame % 8 ^ t.extent.size ≡ 0 }
    ensures uniform { (pages : ℕ → Option Mapping) (t : Tile) → IsTile pages t
        → (region : ℕ) × ((i : ℕ) → i < 8 ^ t.extent.size → pages (t.extent.first + i)
        ≡ Some (record { frame = t.frame + i; region = region; rights = t.rights; dirty = t.dirty })) }
{}

/// Where the pages of a range are cleared, no tile by any sizes becomes larger, and each of size 1 or more that has a page of it is broken.
pub fn a_clear_breaks_the_tiles_that_meet_its_range()
    ensures promotions { (z : SizeSet) (first len : ℕ) (old new : ℕ → Option Mapping) → Clears first len old new → promotions_in z old new ≡ 0 }
    ensures demotions { (z : SizeSet) (first len : ℕ) (old new : ℕ → Option Mapping) → Clears first len old new
        → demotions_in z old new ≡ large_tiles_meeting_in z first len old }
{}

/// Where the pages are as they were, so are the tiles by any sizes, and none becomes larger or is broken.
pub fn the_same_pages_have_the_same_tiles()
    ensures tiles { (z : SizeSet) (old new : ℕ → Option Mapping) → ((p : ℕ) → new p ≡ old p) → (page : ℕ) → tile_in z new page ≡ tile_in z old page }
    ensures tests { (z : SizeSet) (old new : ℕ → Option Mapping) → ((p : ℕ) → new p ≡ old p) → (t : Tile) → is_tile_in z new t ≡ is_tile_in z old t }
    ensures promotions { (z : SizeSet) (old new : ℕ → Option Mapping) → ((p : ℕ) → new p ≡ old p) → promotions_in z old new ≡ 0 }
    ensures demotions { (z : SizeSet) (old new : ℕ → Option Mapping) → ((p : ℕ) → new p ≡ old p) → demotions_in z old new ≡ 0 }
{}
