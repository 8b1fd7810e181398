//! The eight parts of an extent, and whether they form one entry.

ghost use Rattle.std.specs.Prelude.{◌≡◌, ◌*◌, ◌<◌, ◌≤◌, ◌↔◌, slice_index_or, Some, IsTrue, MatchOption};
ghost use Rattle.extent_tree.specs.Rows.{blank};
ghost use Rattle.pager_model.specs.Tiles.{moved_by};
ghost use Rattle.tiles.specs.KeptEntries.{Joins, value_of};

use extent_tree::Spot;
use pager_model::Mapping;

/// What is at a part.
pub(crate) fn spot_at(parts: &[Spot<Mapping>], part: usize) -> Spot<Mapping>
    ensures { result ≡ slice_index_or parts.now part blank }
{
    match parts.get(part) {
        Some(spot) => *spot,
        None => Spot::blank(),
    }
}

/// The mapping at a part.
pub(crate) fn value_of(parts: &[Spot<Mapping>], part: usize) -> Option<Mapping>
    ensures { result ≡ value_of parts.now part }
{
    parts.get(part)?.value()
}

/// Whether a mapping is another one, so many frames further.
fn follows(mapping: Option<Mapping>, head: &Mapping, frames: u32) -> bool
    ensures { IsTrue result ↔ (mapping ≡ Some (moved_by frames head.now)) }
{
    match mapping {
        Some(found) => {
            u64::from(found.frame) == u64::from(head.frame) + u64::from(frames)
                && found.region == head.region
                && found.rights == head.rights
                && found.dirty == head.dirty
        }
        None => false,
    }
}

/// The mapping of the first of eight parts of so many pages, where they continue each other in frames of an extent.
pub(crate) fn joined(parts: &[Spot<Mapping>], pages: u32) -> Option<Mapping>
    requires few { pages ≤ 64 }
    requires some { 0 < pages }
    ensures { MatchOption result ((head : Mapping) → Joins parts.now pages head → ⊥) (λ head. Joins parts.now pages head) }
{
    let head = value_of(parts, 0)?;
    if head.frame % (8 * pages) != 0 {
        return None;
    }
    for part in 0..8 {
        if !follows(value_of(parts, part), &head, part as u32 * pages) {
            return None;
        }
    }
    Some(head)
}
