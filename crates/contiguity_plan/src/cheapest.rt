//! Which of a size's extents is emptied at the least cost.

ghost use Rattle.std.specs.Prelude.{◌≡◌, ℕ, ◌+◌, ◌*◌, ◌/◌, ◌<◌, ◌≤◌, ◌++◌, Option, OnOk, IfOk, if◌then◌else◌, is_some};
ghost use Rattle.std.specs.List.{list_any, range_with_len};
ghost use Rattle.pager_model.specs.Options.{is_that};
ghost use Rattle.contiguity_plan.specs.Costs.{is_kept, stays, has_use, page_list, pages_in, emptying, IsBest};
ghost use Rattle.pager_model.specs.Bounds.{most_frames};

use crate::plan::PageOf;
use crate::table::{Use, use_of};
use pager_model::NoMemory;
use std::alloc::Global;

/// An extent by its number among those of its size, and what emptying it costs.
#[derive(Clone, Copy)]
pub(crate) struct Candidate {
    pub(crate) number: u32,
    pub(crate) cost: u32,
}

/// Whether a hand holds the frame.
fn is_that(hand: &Option<u32>, frame: u32) -> bool
    ensures { result ≡ is_that frame hand.now }
{
    match *hand {
        Some(held) => held == frame,
        None => false,
    }
}

/// Whether the page is wired or a processor claims its frame.
fn is_kept(used: Option<Use>) -> bool
    ensures { result ≡ is_kept used }
{
    match used {
        Some(used) => used.wired || used.claim.is_some(),
        None => false,
    }
}

/// Whether a processor holds the frame.
fn is_held(held: &[Option<u32>], frame: u32) -> bool
    ensures { result ≡ list_any (is_that frame) held.now }
{
    held.iter().any(|hand| is_that(hand, frame))
}

/// Whether the frame stays where it is.
fn stays(uses: &[Option<Use>], held: &[Option<u32>], frame: u32) -> bool
    ensures { result ≡ stays uses.now held.now frame }
{
    is_kept(use_of(uses, frame)) || is_held(held, frame)
}

/// The evictions that emptying the frame costs.
fn weight(uses: &[Option<Use>], frame: u32) -> u32
    ensures { result ≡ (if has_use uses.now frame then 1 else 0) }
{
    match use_of(uses, frame) {
        Some(_) => 1,
        None => 0,
    }
}

/// The evictions that emptying so many frames from the first on costs, where none of them stays.
fn cost_of(uses: &[Option<Use>], held: &[Option<u32>], first: u32, count: u32) -> Option<u32>
    requires { first + count ≤ most_frames }
    ensures { result ≡ emptying (stays uses.now held.now) (has_use uses.now) first count }
{
    let mut cost = 0;
    for frame in first..first + count {
        if stays(uses, held, frame) {
            return None;
        }
        cost += weight(uses, frame);
    }
    Some(cost)
}

/// The best so far, after one more.
fn better(best: Option<Candidate>, number: u32, cost: Option<u32>) -> Option<Candidate>
    ensures { (costs : ℕ → Option ℕ) → costs number ≡ cost → IsBest costs number best → IsBest costs (number + 1) result }
{
    let cost = match cost {
        Some(cost) => cost,
        None => return best,
    };
    match best {
        Some(least) if least.cost <= cost => best,
        _ => Some(Candidate { number, cost }),
    }
}

/// The extent of so many frames that is emptied at the least cost, the lowest of equal ones.
pub(crate) fn cheapest(
    uses: &[Option<Use>],
    held: &[Option<u32>],
    frames: u32,
    count: u32,
) -> Option<Candidate>
    requires some { 0 < count }
    requires few { frames ≤ most_frames }
    ensures { IsBest (λ number. emptying (stays uses.now held.now) (has_use uses.now) (number * count) count) (frames / count) result }
{
    let mut best = None;
    for number in 0..frames / count {
        let cost = cost_of(uses, held, number * count, count);
        best = better(best, number, cost);
    }
    best
}

/// One page more, where there is one.
fn push_page(pages: &mut Vec<PageOf>, used: Option<Use>) -> Result<(), NoMemory>
    ensures { OnOk result (pages.new.items ≡ pages.old.items ++ page_list used) }
{
    if let Some(used) = used {
        pages.push(used.page)?;
    }
    Ok(())
}

/// The pages that use so many frames from the first on, in order.
pub(crate) fn pages_of(
    alloc: Global,
    uses: &[Option<Use>],
    first: u32,
    count: u32,
) -> Result<Vec<PageOf>, NoMemory>
    requires { first + count ≤ most_frames }
    ensures { IfOk result (λ pages. pages.items ≡ pages_in uses.now (range_with_len first count)) }
{
    let mut pages = Vec::new(alloc);
    for frame in first..first + count {
        push_page(&mut pages, use_of(uses, frame))?;
    }
    Ok(pages)
}
