//! Who writes the next entry of a space.

ghost use Rattle.std.specs.Prelude.{◌≡◌, true, false};
ghost use Rattle.pager_model.specs.Regions.{in_range};
ghost use Rattle.pager_model.specs.SpaceStates.{IsClearingAnswer, IsClearingOf, IsPinningAnswer, IsPinningOf, MayGoOn, next_after};
ghost use Rattle.told_space.specs.Told.{next_of};

use crate::calls::is_in_range;
use pager_model::{Call, Reply, What};

/// Who writes the next entry of a space.
#[derive(Clone, Copy)]
pub enum Next {
    Anyone,
    Only {
        processor: u32,
    },
    /// The pages of the range gave their frames up.
    AfterClear {
        processor: u32,
        first: u32,
        length: u32,
    },
    /// The frames of the range were wired, or were no longer.
    AfterPin {
        processor: u32,
        first: u32,
        length: u32,
        wired: bool,
    },
}

impl Next {
    /// Whether an entry of the processor may come.
    pub(crate) fn allows(self, processor: u32, what: &What) -> bool
        ensures may { result ≡ true → MayGoOn (next_of self) processor what.now }
        ensures may_not { result ≡ false → MayGoOn (next_of self) processor what.now → ⊥ }
    {
        match self {
            Next::Anyone => true,
            Next::Only { processor: own } => own == processor,
            Next::AfterClear {
                processor: own,
                first,
                length,
            } => own == processor && is_clearing(first, length, what),
            Next::AfterPin {
                processor: own,
                first,
                length,
                wired,
            } => own == processor && is_pinning(first, length, wired, what),
        }
    }

    /// Who writes the next one after an entry of the processor.
    pub(crate) fn after(processor: u32, what: &What) -> Next
        ensures { next_of result ≡ next_after processor what.now }
    {
        match *what {
            What::Take { .. } | What::UseHeld { .. } | What::Out { .. } | What::Kept { .. } => {
                Next::Only { processor }
            }
            What::Failed { writing, .. } => {
                if writing {
                    Next::Anyone
                } else {
                    Next::Only { processor }
                }
            }
            What::Clear { first, length } => Next::AfterClear {
                processor,
                first,
                length,
            },
            What::Pin {
                first,
                length,
                wired,
            } => Next::AfterPin {
                processor,
                first,
                length,
                wired,
            },
            _ => Next::Anyone,
        }
    }
}

/// Whether it is an unmap of a page of the range or a discard of the range, which is done.
fn clears(first: u32, length: u32, call: &Call, reply: Reply) -> bool
    ensures clears { result ≡ true → IsClearingOf first length call.now reply }
    ensures other { result ≡ false → IsClearingOf first length call.now reply → ⊥ }
{
    match (*call, reply) {
        (Call::Unmap { page, .. }, Reply::Done) => is_in_range(first, length, page),
        (
            Call::Discard {
                page,
                length: own,
                ..
            },
            Reply::Done,
        ) => page == first && own == length,
        _ => false,
    }
}

/// Whether it is the answer of such a call.
fn is_clearing(first: u32, length: u32, what: &What) -> bool
    ensures clearing { result ≡ true → IsClearingAnswer first length what.now }
    ensures other { result ≡ false → IsClearingAnswer first length what.now → ⊥ }
{
    match what {
        What::Answer { call, answered, .. } => clears(first, length, call, answered.reply),
        _ => false,
    }
}

/// Whether it is a wire of a page of the range, or an unwire of one, which is done.
fn pins(first: u32, length: u32, wired: bool, call: &Call, reply: Reply) -> bool
    ensures pins { result ≡ true → IsPinningOf first length wired call.now reply }
    ensures other { result ≡ false → IsPinningOf first length wired call.now reply → ⊥ }
{
    match (*call, reply) {
        (Call::Wire { page, .. }, Reply::Done) => wired && is_in_range(first, length, page),
        (Call::Unwire { page, .. }, Reply::Done) => !wired && is_in_range(first, length, page),
        _ => false,
    }
}

/// Whether it is the answer of such a call.
fn is_pinning(first: u32, length: u32, wired: bool, what: &What) -> bool
    ensures pinning { result ≡ true → IsPinningAnswer first length wired what.now }
    ensures other { result ≡ false → IsPinningAnswer first length wired what.now → ⊥ }
{
    match what {
        What::Answer { call, answered, .. } => { pins(first, length, wired, call, answered.reply) }
        _ => false,
    }
}
