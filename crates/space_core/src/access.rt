//! Loads and stores as a space sees them: the page, the word in it, and what the rights of a page allow.

ghost use Rattle.std.specs.Prelude.{◌≡◌, ◌<◌, false, None, IfSome};
ghost use Rattle.pager_model.specs.SpaceStates.{access_page};
ghost use Rattle.space_core.specs.Pages.{permits};
ghost use Rattle.space_core.specs.Standing.{CanBegin};
ghost use Rattle.pager_model.specs.Bounds.{space_pages};

use pager_model::{Answered, Call, Reply, Rights, page_of};

/// The page of a load or a store.
pub fn accessed_page(call: &Call) -> Option<u32>
    requires can { CanBegin call.now }
    ensures page { result ≡ access_page call.now }
    ensures in_space { IfSome result (λ page. page < space_pages) }
{
    match *call {
        Call::Load { address, .. } | Call::Store { address, .. } => Some(page_of(address)),
        _ => None,
    }
}

/// Whether a page's rights allow the load or the store.
pub fn permits(rights: Rights, call: &Call) -> bool
    ensures { result ≡ permits rights call.now }
{
    match call {
        Call::Load { .. } => !matches!(rights, Rights::NoAccess),
        Call::Store { .. } => matches!(rights, Rights::Write),
        _ => false,
    }
}

/// A reply, where no processor keeps a translation.
pub fn answered(reply: Reply) -> Answered
    ensures { result ≡ record { reply = reply; hit = false; size = None } }
{
    Answered {
        reply,
        hit: false,
        size: None,
    }
}
