//! What is asked for pages.

ghost use Rattle.std.specs.Prelude.{ℕ, ◌≡◌, ◌≢◌, Some, None, true, false, not, ◌==◌, IfSome};
ghost use Rattle.pager_model.specs.FrameStates.{Taking, layout_of, used_at, frame_of, claim_in, take_frame, counted, give_page, pin_range, lowest_claimed};
ghost use Rattle.pager_model.specs.Layouts.{preferred_in};
ghost use Rattle.frame_table.specs.Refusals.{want_refusal, take_refusal, page_refusal, pin_refusal};
ghost use Rattle.superpager_c.specs.Statuses.{status_on, pin_status, want_of};
ghost use Rattle.superpager_c.specs.Answers.{given_answer, refused_frame, refused_size, refused_give, refused_pin};

use crate::answers::{FrameAnswer, GiveAnswer, PinAnswer, SizeAnswer};
use crate::asked::PageWant;
use crate::handle::Superpager;
use std::alloc::Global;

/// A page that has no frame gets one.
#[unsafe(no_mangle)]
pub extern "C" fn superpager_take(
    alloc: Global,
    pool: &mut Superpager,
    space: u32,
    page: u32,
    want: PageWant,
) -> FrameAnswer
    ensures status { result.status ≡ status_on pool.old.kept.state (λ st. take_refusal st space page (want_of want)) }
    ensures taken { result.status ≡ 0 → IfSome pool.old.kept.state (λ st. (t : Taking) × (take_frame st space page (want_of want) ≡ Some t)
        × (pool.new.kept.state ≡ Some (counted t.state)) × (result.frame ≡ t.frame)) }
    ensures same { result.status ≢ 0 → (pool.new.kept.state ≡ pool.old.kept.state) × (result ≡ refused_frame result.status) }
{
    let Some(mut table) = pool.take_out(alloc) else {
        return FrameAnswer::closed();
    };
    let taken = table.take(space, page, &want.want());
    pool.put_in(table);
    FrameAnswer::of(taken)
}

/// The size that a new reservation round the page is tried with first, before frames are looked at.
#[unsafe(no_mangle)]
pub extern "C" fn superpager_preferred(
    alloc: Global,
    pool: &mut Superpager,
    space: u32,
    page: u32,
    want: PageWant,
) -> SizeAnswer
    ensures status { result.status ≡ status_on pool.old.kept.state (λ st. want_refusal space page (want_of want)) }
    ensures preferred { result.status ≡ 0
        → IfSome pool.old.kept.state (λ st. result.size ≡ preferred_in (layout_of st) space page (want_of want)) }
    ensures none { result.status ≢ 0 → result ≡ refused_size result.status }
    ensures same { pool.new.kept.state ≡ pool.old.kept.state }
{
    let Some(table) = pool.take_out(alloc) else {
        return SizeAnswer::closed();
    };
    let preferred = table.preferred(space, page, &want.want());
    pool.put_in(table);
    SizeAnswer::of(preferred)
}

/// The frame of a page.
#[unsafe(no_mangle)]
pub extern "C" fn superpager_frame_of(
    alloc: Global,
    pool: &mut Superpager,
    space: u32,
    page: u32,
) -> FrameAnswer
    ensures status { result.status ≡ status_on pool.old.kept.state (λ st. page_refusal st space page) }
    ensures found { result.status ≡ 0 → IfSome pool.old.kept.state (λ st. frame_of st space page ≡ Some result.frame) }
    ensures none { result.status ≢ 0 → result ≡ refused_frame result.status }
    ensures same { pool.new.kept.state ≡ pool.old.kept.state }
{
    let Some(table) = pool.take_out(alloc) else {
        return FrameAnswer::closed();
    };
    let found = table.frame_of(space, page);
    pool.put_in(table);
    FrameAnswer::of(found)
}

/// A page gives its frame up.
#[unsafe(no_mangle)]
pub extern "C" fn superpager_give(
    alloc: Global,
    pool: &mut Superpager,
    space: u32,
    page: u32,
) -> GiveAnswer
    ensures status { result.status ≡ status_on pool.old.kept.state (λ st. page_refusal st space page) }
    ensures given { result.status ≡ 0 → IfSome pool.old.kept.state (λ st. (frame_of st space page ≡ Some result.frame)
        × (result ≡ given_answer result.frame (claim_in (used_at st result.frame))) × (pool.new.kept.state ≡ Some (give_page st space page))) }
    ensures same { result.status ≢ 0 → (pool.new.kept.state ≡ pool.old.kept.state) × (result ≡ refused_give result.status) }
{
    let Some(mut table) = pool.take_out(alloc) else {
        return GiveAnswer::closed();
    };
    let given = table.give(space, page);
    pool.put_in(table);
    GiveAnswer::of(given)
}

/// The used frames of a range of pages are wired, or are no longer.
#[unsafe(no_mangle)]
pub extern "C" fn superpager_pin(
    alloc: Global,
    pool: &mut Superpager,
    space: u32,
    first: u32,
    length: u32,
    wired: u32,
) -> PinAnswer
    ensures status { result.status ≡ pin_status pool.old.kept.state space first length wired }
    ensures pinned { result.status ≡ 0 → IfSome pool.old.kept.state
        (λ st. pool.new.kept.state ≡ Some (counted (pin_range st space first length (not (wired == 0))))) }
    ensures kept { result.status ≡ 11 → IfSome pool.old.kept.state (λ st. (lowest_claimed st space first length ≡ Some result.page)
        × (frame_of st space result.page ≡ Some result.frame) × (pool.new.kept.state ≡ Some (counted st))) }
    ensures none { result.status ≢ 11 → result ≡ refused_pin result.status }
    ensures same { result.status ≢ 0 → result.status ≢ 11 → pool.new.kept.state ≡ pool.old.kept.state }
{
    let Some(mut table) = pool.take_out(alloc) else {
        return PinAnswer::closed();
    };
    let pinned = table.pin(space, first, length, wired != 0);
    pool.put_in(table);
    PinAnswer::of(pinned)
}
