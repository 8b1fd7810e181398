//! Calls and replies, as a space looks at them.

ghost use Rattle.std.specs.Prelude.{◌≡◌, ℕ, Some};
ghost use Rattle.pager_model.specs.Flat.{is_lawful};
ghost use Rattle.pager_model.specs.Regions.{in_range, range_in};
ghost use Rattle.pager_model.specs.SpaceStates.{access_page, has_right, served_page};
ghost use Rattle.pager_model.specs.TraceText.{IsCall};

use pager_model::{Call, Region, Reply, Rights, page_of};

/// Whether a call with this reply did what it asked for.
pub(crate) fn is_lawful(reply: Reply) -> bool
    ensures { result ≡ is_lawful reply }
{
    matches!(
        reply,
        Reply::Done | Reply::Value(_) | Reply::Clean | Reply::Written
    )
}

/// Whether the rights allow a load, or a store.
pub(crate) fn has_right(writing: bool, rights: Rights) -> bool
    ensures { result ≡ has_right writing rights }
{
    match rights {
        Rights::NoAccess => false,
        Rights::Read => !writing,
        Rights::Write => true,
    }
}

/// Whether a page is one of a range.
pub(crate) fn is_in_range(first: u32, length: u32, page: u32) -> bool
    ensures { result ≡ in_range first length page }
{
    first <= page && page - first < length
}

/// Whether pages from one of a region on lie in the region.
pub(crate) fn is_within(page: u32, length: u32, region: Region) -> bool
    ensures { result ≡ range_in page length (Some region) }
{
    u64::from(page) + u64::from(length) <= u64::from(region.first) + u64::from(region.length)
}

/// The page of a load or a store.
pub(crate) fn access_page(call: &Call) -> Option<u32>
    requires { (spaces : ℕ) × IsCall spaces call.now }
    ensures { result ≡ access_page call.now }
{
    match *call {
        Call::Load { address, .. } => Some(page_of(address)),
        Call::Store { address, .. } => Some(page_of(address)),
        _ => None,
    }
}

/// The page of an answer that has a size.
pub(crate) fn served_page(call: &Call, reply: Reply) -> Option<u32>
    requires { (spaces : ℕ) × IsCall spaces call.now }
    ensures { result ≡ served_page call.now reply }
{
    match (*call, reply) {
        (Call::Load { address, .. }, Reply::Value(_)) => Some(page_of(address)),
        (Call::Store { address, .. }, Reply::Done) => Some(page_of(address)),
        _ => None,
    }
}
