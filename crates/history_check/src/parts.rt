//! Which parts an entry names.

ghost use Rattle.std.specs.Prelude.{◌≡◌, true, false};
ghost use Rattle.pager_model.specs.Entries.{NamesItsParts};
ghost use Rattle.pager_model.specs.FrameStates.{named_space};

use pager_model::{Entry, What};

/// Whether an entry names the parts that it is to name.
pub fn names_its_parts(entry: &Entry) -> bool
    ensures names { result ≡ true → NamesItsParts entry.now }
    ensures other { result ≡ false → NamesItsParts entry.now → ⊥ }
{
    match entry.what {
        What::Answer { call, .. } => entry.space == Some(call.space()),
        What::Out { .. } | What::Failed { .. } => entry.space.is_some() && !entry.frames,
        What::Take { .. }
        | What::Give { .. }
        | What::Clear { .. }
        | What::UseHeld { .. }
        | What::Unclaim { .. }
        | What::Pin { .. }
        | What::Kept { .. } => entry.space.is_some() && entry.frames,
        What::Claim { need, .. } => entry.space.is_some() == need.is_some() && entry.frames,
        What::DropHeld { .. } | What::Got { .. } | What::Refused { .. } | What::Rest { .. } => {
            entry.space.is_none() && entry.frames
        }
    }
}

/// The space that an entry names.
pub fn named_space(entry: &Entry) -> u32
    ensures { result ≡ named_space entry.now.space }
{
    match entry.space {
        Some(space) => space,
        None => 0,
    }
}
