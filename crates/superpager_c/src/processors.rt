//! What is asked for a processor, which claims a victim's frame, holds it once its page gave it up, and drops or uses it.

ghost use Rattle.std.specs.Prelude.{ℕ, ◌≡◌, ◌≢◌, Some, None, IfSome, if◌then◌else◌};
ghost use Rattle.pager_model.specs.FrameStates.{Taking, held_by, take_frame, counted, claimed, dropped, IsVictim};
ghost use Rattle.frame_table.specs.Claims.{IsClaimOf};
ghost use Rattle.frame_table.specs.Refusals.{holds_any, claim_refusal, unclaim_refusal, collect_refusal, drop_refusal, use_refusal};
ghost use Rattle.superpager_c.specs.Statuses.{status_on, want_of};
ghost use Rattle.superpager_c.specs.Answers.{refused_frame, refused_claim, refused_collect};

use crate::answers::{CollectAnswer, FrameAnswer, VictimAnswer};
use crate::asked::PageWant;
use crate::handle::Superpager;
use std::alloc::Global;

/// The processor claims the victim: of the used frames that are neither wired nor claimed the one of least age.
#[unsafe(no_mangle)]
pub extern "C" fn superpager_claim(
    alloc: Global,
    pool: &mut Superpager,
    processor: u32,
) -> VictimAnswer
    ensures status { result.status ≡ status_on pool.old.kept.state (λ st. claim_refusal st processor) }
    ensures claimed { result.status ≡ 0 → IfSome pool.old.kept.state (λ st. IsVictim st result.space result.page result.frame
        × (pool.new.kept.state ≡ Some (counted (claimed st result.frame (Some processor))))) }
    ensures same { result.status ≢ 0 → (pool.new.kept.state ≡ pool.old.kept.state) × (result ≡ refused_claim result.status) }
{
    let Some(mut table) = pool.take_out(alloc) else {
        return VictimAnswer::closed();
    };
    let claimed = table.claim(processor);
    pool.put_in(table);
    VictimAnswer::of(claimed)
}

/// The frame that the processor claims is claimed no more.
#[unsafe(no_mangle)]
pub extern "C" fn superpager_unclaim(
    alloc: Global,
    pool: &mut Superpager,
    processor: u32,
) -> FrameAnswer
    ensures status { result.status ≡ status_on pool.old.kept.state (λ st. unclaim_refusal st processor) }
    ensures unclaimed { result.status ≡ 0 → IfSome pool.old.kept.state (λ st. IsClaimOf st processor result.frame
        × (pool.new.kept.state ≡ Some (counted (claimed st result.frame None)))) }
    ensures same { result.status ≢ 0 → (pool.new.kept.state ≡ pool.old.kept.state) × (result ≡ refused_frame result.status) }
{
    let Some(mut table) = pool.take_out(alloc) else {
        return FrameAnswer::closed();
    };
    let unclaimed = table.unclaim(processor);
    pool.put_in(table);
    FrameAnswer::of(unclaimed)
}

/// What became of the frame that the processor claimed.
#[unsafe(no_mangle)]
pub extern "C" fn superpager_collect(
    alloc: Global,
    pool: &mut Superpager,
    processor: u32,
) -> CollectAnswer
    ensures status { result.status ≡ status_on pool.old.kept.state (λ st. collect_refusal st processor) }
    ensures is_held { result.status ≡ 0 → IfSome pool.old.kept.state (λ st. result.is_held ≡ (if holds_any st processor then 1 else 0)) }
    ensures held { result.status ≡ 0 → result.is_held ≡ 1 → IfSome pool.old.kept.state (λ st. held_by st processor ≡ Some result.frame) }
    ensures claimed { result.status ≡ 0 → result.is_held ≡ 0 → IfSome pool.old.kept.state (λ st. IsClaimOf st processor result.frame) }
    ensures none { result.status ≢ 0 → result ≡ refused_collect result.status }
    ensures same { pool.new.kept.state ≡ pool.old.kept.state }
{
    let Some(table) = pool.take_out(alloc) else {
        return CollectAnswer::closed();
    };
    let collected = table.collect(processor);
    pool.put_in(table);
    CollectAnswer::of(collected)
}

/// The frame that the processor holds becomes free.
#[unsafe(no_mangle)]
pub extern "C" fn superpager_drop_held(
    alloc: Global,
    pool: &mut Superpager,
    processor: u32,
) -> FrameAnswer
    ensures status { result.status ≡ status_on pool.old.kept.state (λ st. drop_refusal st processor) }
    ensures dropped { result.status ≡ 0 → IfSome pool.old.kept.state (λ st. (held_by st processor ≡ Some result.frame)
        × (pool.new.kept.state ≡ Some (counted (dropped st processor)))) }
    ensures same { result.status ≢ 0 → (pool.new.kept.state ≡ pool.old.kept.state) × (result ≡ refused_frame result.status) }
{
    let Some(mut table) = pool.take_out(alloc) else {
        return FrameAnswer::closed();
    };
    let dropped = table.drop_held(processor);
    pool.put_in(table);
    FrameAnswer::of(dropped)
}

/// The frame that the processor holds becomes free, and a page that has no frame gets this one or another.
#[unsafe(no_mangle)]
pub extern "C" fn superpager_use_held(
    alloc: Global,
    pool: &mut Superpager,
    processor: u32,
    space: u32,
    page: u32,
    want: PageWant,
) -> FrameAnswer
    ensures status { result.status ≡ status_on pool.old.kept.state (λ st. use_refusal st processor space page (want_of want)) }
    ensures taken { result.status ≡ 0 → IfSome pool.old.kept.state
        (λ st. (t : Taking) × (take_frame (dropped st processor) space page (want_of want) ≡ Some t)
        × (pool.new.kept.state ≡ Some (counted t.state)) × (result.frame ≡ t.frame)) }
    ensures same { result.status ≢ 0 → (pool.new.kept.state ≡ pool.old.kept.state) × (result ≡ refused_frame result.status) }
{
    let Some(mut table) = pool.take_out(alloc) else {
        return FrameAnswer::closed();
    };
    let taken = table.use_held(processor, space, page, &want.want());
    pool.put_in(table);
    FrameAnswer::of(taken)
}
