//! The used places of a range of pages of a space: they are wired, or are no longer, and one of them may be claimed.
//!
//! A range is gone through from one used place to the next. Between two of them extents of pages without a reservation, and of a reservation's
//! pages without a used place, are stepped over whole. So the steps, of at most twenty looks each, are one for each 512 pages that meet no
//! reservation, and at most 42 for each reservation and each used place that the range meets.

ghost use Rattle.std.specs.Prelude.{◌≡◌, ℕ, ◌+◌, ◌<◌, ◌≤◌, Some, None, true, false, IfSome, IfNone, fold, find, is_some};
ghost use Rattle.std.specs.List.{range_with_len};
ghost use Rattle.pager_model.specs.FrameStates.{is_claimed_page, wire_page};
ghost use Rattle.pager_model.specs.Layouts.{frame_in};
ghost use Rattle.pager_model.specs.Bounds.{space_pages, most_spaces};
ghost use Rattle.used_frames.specs.Noted.{note_of};

use crate::layout::Layout;
use used_frames::UsedFrames;

/// A page that keeps others from being wired, since a processor claims its frame.
#[derive(Clone, Copy, Debug, PartialEq, Eq)]
pub struct Kept {
    pub page: u32,
    pub frame: u32,
}

/// A page with the frame of its place.
#[derive(Clone, Copy)]
struct Placed {
    page: u32,
    frame: u32,
}

/// The lowest page from one on to before an end that has a place.
fn next_placed(layout: &Layout, space: u32, page: u32, end: u32) -> Option<Placed>
    requires few { space < most_spaces }
    requires within { end ≤ space_pages }
    ensures range { IfSome result (λ p. (page ≤ p.page) × (p.page < end)) }
    ensures place { IfSome result (λ p. frame_in layout.now space p.page ≡ Some p.frame) }
    ensures lowest { IfSome result (λ p. (other : ℕ) → page ≤ other → other < p.page → frame_in layout.now space other ≡ None) }
    ensures none { IfNone result ((other : ℕ) → page ≤ other → other < end → frame_in layout.now space other ≡ None) }
{
    let mut from = page;
    while from < end {
        let placeless = layout.placeless_from(space, from);
        if placeless == 0 {
            let frame = layout.frame_of(space, from).unwrap();
            return Some(Placed { page: from, frame });
        }
        from += placeless.min(end - from);
    }
    None
}

/// The lowest page of the range whose frame a processor claims.
pub(crate) fn lowest_claimed(
    layout: &Layout,
    used: &UsedFrames,
    space: u32,
    first: u32,
    length: u32,
) -> Option<Kept>
    requires few { space < most_spaces }
    requires within { first + length ≤ space_pages }
    ensures found { IfSome result (λ k. (find (is_claimed_page layout.now used.now.frames space) (range_with_len first length) ≡ Some k.page)
        × (frame_in layout.now space k.page ≡ Some k.frame)) }
    ensures none { IfNone result (find (is_claimed_page layout.now used.now.frames space) (range_with_len first length) ≡ None) }
{
    let mut from = first;
    while let Some(place) = next_placed(layout, space, from, first + length) {
        if used.is_claimed(place.frame) {
            return Some(Kept {
                page: place.page,
                frame: place.frame,
            });
        }
        from = place.page + 1;
    }
    None
}

/// The used places of the range are wired, or are no longer.
pub(crate) fn wire_range(
    layout: &Layout,
    used: &mut UsedFrames,
    space: u32,
    first: u32,
    length: u32,
    wired: bool,
)
    requires few { space < most_spaces }
    requires within { first + length ≤ space_pages }
    requires noted { (page frame : ℕ) → frame_in layout.now space page ≡ Some frame → is_some (note_of used.old frame) ≡ true }
    ensures { used.new ≡ record used.old { frames = fold (wire_page layout.now space wired) used.old.frames (range_with_len first length) } }
{
    let mut from = first;
    while let Some(place) = next_placed(layout, space, from, first + length) {
        used.wire(place.frame, wired);
        from = place.page + 1;
    }
}
