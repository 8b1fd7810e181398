//! Which answers end the call that a processor is in.

ghost use Rattle.std.specs.Prelude.{◌≡◌, ◌==◌, ◌&&◌};
ghost use Rattle.pager_model.specs.Flat.{page_of};
ghost use Rattle.pager_model.specs.Order.{is_served, is_plain, is_done, is_refusal, is_busy, is_no_frames, is_store_fault, is_access, is_access_at, is_told_as, is_copying, is_clearing, is_pinning, is_answered_alone, may_answer};
ghost use Rattle.pager_model.specs.Regions.{in_range};
ghost use Rattle.followed_order.specs.Doings.{doing_of, access_of};

use crate::doing::{Access, Doing};
use pager_model::{Call, Reply};

/// Whether an access is served.
fn is_served(reply: Reply) -> bool
    ensures { result ≡ is_served reply }
{
    matches!(reply, Reply::Done | Reply::Value(_))
}

/// Whether no other entry of the call has to come before the reply.
fn is_plain(reply: Reply) -> bool
    ensures { result ≡ is_plain reply }
{
    !matches!(
        reply,
        Reply::NoFrames { .. } | Reply::StoreFault { .. } | Reply::NoMemory | Reply::Busy { .. }
    )
}

/// Whether the call is done.
fn is_done(reply: Reply) -> bool
    ensures { result ≡ is_done reply }
{
    matches!(reply, Reply::Done)
}

/// Whether it says that a range lies in no single region, or that its region is wired.
fn is_refusal(reply: Reply) -> bool
    ensures { result ≡ is_refusal reply }
{
    matches!(reply, Reply::Unmapped | Reply::Denied)
}

/// Whether it names this page, whose frame is claimed.
fn is_busy(page: u32, reply: Reply) -> bool
    ensures { result ≡ is_busy page reply }
{
    match reply {
        Reply::Busy { page: p } => p == page,
        _ => false,
    }
}

/// Whether it says that no frame could be had, with these numbers.
fn is_no_frames(wired: u32, claimed: u32, held: u32, reply: Reply) -> bool
    ensures { result ≡ is_no_frames wired claimed held reply }
{
    match reply {
        Reply::NoFrames {
            wired: w,
            claimed: c,
            held: h,
        } => w == wired && (c == claimed && h == held),
        _ => false,
    }
}

/// Whether it tells this fault.
fn is_store_fault(space: u32, count: u64, reply: Reply) -> bool
    ensures { result ≡ is_store_fault space count reply }
{
    match reply {
        Reply::StoreFault { space: s, count: n } => s == space && n == count,
        _ => false,
    }
}

/// Whether the call is a store, or a load, where that was told.
fn is_told_as(writing: bool, told: Option<bool>) -> bool
    ensures { result ≡ is_told_as writing told }
{
    match told {
        None => true,
        Some(told) => { if writing { told } else { !told } }
    }
}

/// Whether the call loads or stores.
fn is_access(call: &Call) -> bool
    ensures { result ≡ is_access call.now }
{
    matches!(call, Call::Load { .. } | Call::Store { .. })
}

/// Whether the page of an address is this one.
fn is_page_of(address: u64, page: u32) -> bool
    ensures { result ≡ (page_of address == page) }
{
    address / 8192 == u64::from(page)
}

/// Whether the call is a sync or an evict of this page.
fn is_copying(space: u32, page: u32, call: &Call) -> bool
    ensures { result ≡ is_copying space page call.now }
{
    match *call {
        Call::Sync { space: s, page: p } => s == space && p == page,
        Call::Evict { space: s, page: p } => s == space && p == page,
        _ => false,
    }
}

/// Whether a page is one of a range.
fn is_in_range(first: u32, length: u32, page: u32) -> bool
    ensures { result ≡ in_range first length page }
{
    first <= page && page - first < length
}

/// Whether the call is an unmap of a page of the range, or a discard of the range.
fn is_clearing(space: u32, first: u32, length: u32, call: &Call) -> bool
    ensures { result ≡ is_clearing space first length call.now }
{
    match *call {
        Call::Unmap { space: s, page } => s == space && is_in_range(first, length, page),
        Call::Discard {
            space: s,
            page,
            length: n,
        } => s == space && (page == first && n == length),
        _ => false,
    }
}

/// Whether the call is a wire of a page of the range, or an unwire of one.
fn is_pinning(space: u32, first: u32, length: u32, wired: bool, call: &Call) -> bool
    ensures { result ≡ is_pinning space first length wired call.now }
{
    match *call {
        Call::Wire { space: s, page } => {
            wired && (s == space && is_in_range(first, length, page))
        }
        Call::Unwire { space: s, page } => {
            !wired && (s == space && is_in_range(first, length, page))
        }
        _ => false,
    }
}

/// Whether the call is answered so by one entry alone.
fn is_answered_alone(call: &Call, reply: Reply) -> bool
    ensures { result ≡ is_answered_alone call.now reply }
{
    match call {
        Call::Unmap { .. } | Call::Wire { .. } => matches!(reply, Reply::Unmapped),
        Call::Discard { .. } | Call::Unwire { .. } => is_refusal(reply),
        Call::Sync { .. } | Call::Evict { .. } => {
            is_plain(reply) || matches!(reply, Reply::NoMemory)
        }
        _ => is_plain(reply),
    }
}

impl Access {
    /// Whether the call is this access.
    pub(crate) fn is_of(&self, call: &Call) -> bool
        ensures { result ≡ is_access_at (access_of self.now) call.now }
    {
        match *call {
            Call::Load { space, address } => {
                (space == self.space && is_page_of(address, self.page))
                    && is_told_as(false, self.writing)
            }
            Call::Store { space, address, .. } => {
                (space == self.space && is_page_of(address, self.page))
                    && is_told_as(true, self.writing)
            }
            _ => false,
        }
    }

    /// Whether it is at this page.
    pub(crate) fn is_at(&self, space: u32, page: u32) -> bool
        ensures { result ≡ ((space == self.now.space) && (page == self.now.page)) }
    {
        space == self.space && page == self.page
    }
}

impl Doing {
    /// Whether the answer ends the call where its processor is.
    pub(crate) fn may_answer(&self, call: &Call, reply: Reply) -> bool
        ensures { result ≡ may_answer (doing_of self.now) call.now reply }
    {
        match self {
            Doing::Idle => is_answered_alone(call, reply),
            Doing::Cleared {
                space,
                first,
                length,
            } => is_clearing(*space, *first, *length, call) && is_done(reply),
            Doing::Pinned {
                space,
                first,
                length,
                wired,
            } => is_pinning(*space, *first, *length, *wired, call) && is_done(reply),
            Doing::Blocked {
                space,
                first,
                length,
                page,
            } => is_pinning(*space, *first, *length, true, call) && is_busy(*page, reply),
            Doing::Uncopied { space, page, count } => {
                is_copying(*space, *page, call) && is_store_fault(*space, *count, reply)
            }
            Doing::Filling { access, .. } => access.is_of(call) && is_served(reply),
            Doing::Late(access) => access.is_of(call) && is_plain(reply),
            Doing::Faulted {
                access,
                space,
                count,
            } => access.is_of(call) && is_store_fault(*space, *count, reply),
            Doing::Lacking { access, .. } => {
                access.is_of(call) && matches!(reply, Reply::NoMemory)
            }
            Doing::Refusing {
                wired,
                claimed,
                held,
            } => is_access(call) && is_no_frames(*wired, *claimed, *held, reply),
            _ => false,
        }
    }
}
