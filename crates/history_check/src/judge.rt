//! Whether an entry may follow a legal history.

ghost use Rattle.std.specs.Prelude.{◌≡◌, ℕ, ◌+◌, ◌-◌, ◌^◌, ◌<◌, ◌∷◌, ◌++◌, [], true, false, List, Some, None, IfOk, length};
ghost use Rattle.pager_model.specs.declared.entry.Entry.{Entry as Item};
ghost use Rattle.pager_model.specs.FrameStates.{named_space};
ghost use Rattle.pager_model.specs.Legal.{MayFollow};
ghost use Rattle.pager_model.specs.Order.{victim_in};
ghost use Rattle.pager_model.specs.Settings.{Given};
ghost use Rattle.followed_frames.specs.Ready.{IsReached};
ghost use Rattle.told_space.specs.Told.{kept_of};
ghost use Rattle.history_check.specs.Ready.{FramesMay, IsReadyHere, frames_next};
ghost use Rattle.history_check.specs.Standing.{GoesOn, IsKeptAfter, StandsAlone, StandsAt, page_in};

use crate::clear::clear;
use crate::parts::{named_space, names_its_parts};
use followed_frames::FollowedFrames;
use followed_order::Progress;
use pager_model::{Entry, NoMemory, What};
use told_space::ToldSpace;

/// The page of the victim whose frame a processor claims or holds, where it does.
fn victim_page(progress: &Progress) -> u32
    ensures { result ≡ page_in (victim_in progress.now.doing) }
{
    match progress.victim() {
        Some(victim) => victim.page,
        None => 0,
    }
}

/// Whether the frames allow an entry of a space, where it names them. They follow it where they do.
fn judge_frames(frames: &mut FollowedFrames, space: &ToldSpace, mark: u32, entry: &Entry) -> bool
    requires room { frames.old.entries < 2 ^ 45 }
    requires reached { IsReached frames.old }
    requires ready { IsReadyHere frames.old space.now entry.now }
    ensures may { result ≡ true → FramesMay frames.old mark entry.now }
    ensures after { result ≡ true → frames.new ≡ frames_next frames.old entry.now }
    ensures may_not { result ≡ false → FramesMay frames.old mark entry.now → ⊥ }
{
    if !entry.frames {
        return true;
    }
    match entry.what {
        What::Clear { first, length } => {
            clear(frames, space, named_space(entry), first, length);
            true
        }
        _ => frames.judge(mark, entry),
    }
}

/// Whether an entry of a space may follow a legal history. The frames, the space and the entry's processor follow it where it may.
pub(crate) fn judge_on_space(
    frames: &mut FollowedFrames,
    space: &mut ToldSpace,
    progress: &mut Progress,
    mark: u32,
    entry: &Entry,
) -> Result<bool, NoMemory>
    requires room { frames.old.entries < 2 ^ 45 }
    requires made { progress.old.made < 2 ^ 64 - 1 }
    requires on_space { (s : ℕ) × (entry.now.space ≡ Some s) }
    requires stands { (g : Given) × (history : List Item) × StandsAt g history frames.old (kept_of space.old) progress.old mark (named_space entry.now.space) entry.now }
    ensures goes_on { IfOk result (λ may. may ≡ true → (g : Given) (history : List Item)
        → StandsAt g history frames.old (kept_of space.old) progress.old mark (named_space entry.now.space) entry.now
        → GoesOn g history entry.now frames.new progress.old progress.new) }
    ensures kept { IfOk result (λ may. may ≡ true → (g : Given) (history : List Item)
        → StandsAt g history frames.old (kept_of space.old) progress.old mark (named_space entry.now.space) entry.now
        → IsKeptAfter g (history ++ entry.now ∷ []) (named_space entry.now.space) (kept_of space.new)) }
    ensures may_not { IfOk result (λ may. may ≡ false → (g : Given) (history : List Item)
        → StandsAt g history frames.old (kept_of space.old) progress.old mark (named_space entry.now.space) entry.now
        → MayFollow g history entry.now → ⊥) }
{
    if !names_its_parts(entry) {
        return Ok(false);
    }
    let Some(after) = progress.after(entry) else {
        return Ok(false);
    };
    if !space.allows(entry, victim_page(progress)) {
        return Ok(false);
    }
    if !judge_frames(frames, space, mark, entry) {
        return Ok(false);
    }
    if !space.follow(entry)? {
        return Ok(false);
    }
    *progress = after;
    Ok(true)
}

/// Whether an entry without a space may follow a legal history: a daemon's claim or rest, a refusal, or what became of a claimed or held frame.
/// The frames and the entry's processor follow it where it may.
pub(crate) fn judge_alone(
    frames: &mut FollowedFrames,
    progress: &mut Progress,
    mark: u32,
    entry: &Entry,
) -> bool
    requires room { frames.old.entries < 2 ^ 45 }
    requires made { progress.old.made < 2 ^ 64 - 1 }
    requires on_no_space { entry.now.space ≡ None }
    requires stands { (g : Given) × (history : List Item) × StandsAlone g history frames.old progress.old mark entry.now }
    ensures goes_on { result ≡ true → (g : Given) (history : List Item) → StandsAlone g history frames.old progress.old mark entry.now
        → GoesOn g history entry.now frames.new progress.old progress.new }
    ensures may_not { result ≡ false → (g : Given) (history : List Item) → StandsAlone g history frames.old progress.old mark entry.now
        → MayFollow g history entry.now → ⊥ }
{
    if !names_its_parts(entry) {
        return false;
    }
    let Some(next) = progress.after(entry) else {
        return false;
    };
    if !frames.judge(mark, entry) {
        return false;
    }
    *progress = next;
    true
}
