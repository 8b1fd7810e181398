//! The pages of a range give their frames up.

ghost use Rattle.std.specs.Prelude.{◌≡◌, ℕ, ◌+◌, ◌^◌, ◌<◌, ◌≤◌, Some};
ghost use Rattle.pager_model.specs.Bounds.{space_pages};
ghost use Rattle.pager_model.specs.FrameStates.{counted, frame_of, give_range};
ghost use Rattle.followed_frames.specs.Ready.{IsReached};
ghost use Rattle.tiles.specs.Resident.{frame_of_page};

use followed_frames::FollowedFrames;
use told_space::ToldSpace;

/// The pages of a range give their frames up, ascending, in the frames. The space is as before: its pages are still resident.
pub(crate) fn clear(
    frames: &mut FollowedFrames,
    space: &ToldSpace,
    number: u32,
    first: u32,
    length: u32,
)
    requires room { frames.old.entries < 2 ^ 45 }
    requires reached { IsReached frames.old }
    requires within { first + length ≤ space_pages }
    requires agrees { (p : ℕ) → frame_of_page space.now.space.pages p ≡ frame_of frames.old number p }
    ensures { frames.new ≡ counted (give_range frames.old number first length) }
{
    let end = first + length;
    let mut from = first;
    while let Some(page) = space.next_resident(from, end) {
        let Some(frame) = space.frame_of(page) else {
            unreachable!()
        };
        frames.give(number, page, frame);
        from = page + 1;
    }
    frames.end_entry();
}
