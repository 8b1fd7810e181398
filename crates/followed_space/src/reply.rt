//! Replies as a follower sees them.

ghost use Rattle.std.specs.Prelude.{◌≡◌};
ghost use Rattle.pager_model.specs.Flat.{is_lawful};

use pager_model::Reply;

/// Whether a call with this reply did what it asked for.
pub fn is_lawful(reply: Reply) -> bool
    ensures { result ≡ is_lawful reply }
{
    matches!(
        reply,
        Reply::Done | Reply::Value(_) | Reply::Clean | Reply::Written
    )
}
