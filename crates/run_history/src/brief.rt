//! What is kept of an entry.

ghost use Rattle.std.specs.Prelude.{◌≡◌, ℕ, ◌<◌, length, vec_len, vec_capacity, Some, IfSome};
ghost use Rattle.pager_model.specs.declared.entry.What.TheVariants.{Answer};
ghost use Rattle.pager_model.specs.Flat.{space_of_call};
ghost use Rattle.run_history.specs.Answers.{answer_in, answer_of};
ghost use Rattle.run_history.specs.Briefs.{on_space, on_both, call_of, answered_of, fill_of, claim_of, entry_of, brief_of, FitsIn, Says, Keeps};

use crate::answer_in;
use pager_model::{Answered, Call, Entry, Need, Reply, Size, Want, What};
use std::mem::size_of;

/// An entry in few bytes: its processor, its space, and what it says of them.
#[derive(Clone, Copy)]
pub(crate) struct Brief {
    pub(crate) processor: u32,
    pub(crate) space: u32,
    pub(crate) said: Said,
}

// The small fields of each kind come first, so that no kind takes more.
const _: () = prove!(size_of::<Brief>() == 32);

/// What an entry says: the fields of its kind alone. Which parts it names follows from the kind, and a call is on the space that it names.
#[derive(Clone, Copy)]
pub(crate) enum Said {
    /// A store of a word was done, or a load was answered by it.
    Accessed {
        store: bool,
        hit: bool,
        size: Size,
        number: u32,
        address: u64,
        word: u64,
    },
    /// A page got a frame, with what its region wants of it; the processor held one before, or didn't.
    Filled {
        held: bool,
        wired: bool,
        page: u32,
        frame: u32,
        low: u32,
        high: u32,
        cap: u32,
    },
    /// A page gave its frame up.
    Given {
        page: u32,
        frame: u32,
    },
    /// A page was paged out.
    PagedOut {
        written: bool,
        page: u32,
    },
    /// The frame of a page of a space was claimed for a call's need.
    Claimed {
        writing: bool,
        owner: u32,
        page: u32,
        frame: u32,
        wanted: u32,
    },
    /// Any other entry, which is kept whole at this place.
    Whole(usize),
}

impl Brief {
    /// The brief that says an entry. There is none of the kinds that few calls make.
    pub(crate) fn of(entry: &Entry) -> Option<Brief>
        ensures { IfSome result (Says entry.now) }
    {
        let space = entry.space?;
        let said = said_of(space, entry)?;
        Some(Brief {
            processor: entry.processor,
            space,
            said,
        })
    }

    /// The brief of an entry. Where none says it alone, it is kept whole behind the others, and its brief says where.
    pub(crate) fn keep(entry: &Entry, whole: &mut Vec<Entry>) -> Brief
        requires { vec_len whole.old < vec_capacity whole.old }
        ensures keeps { Keeps entry.now whole.old.items whole.new.items result }
        ensures capacity { vec_capacity whole.new ≡ vec_capacity whole.old }
    {
        if let Some(brief) = Brief::of(entry) {
            return brief;
        }
        let place = whole.len();
        whole.push_reserved(Entry { ..*entry });
        Brief {
            processor: entry.processor,
            space: 0,
            said: Said::Whole(place),
        }
    }

    /// The entry that it says, beside those that are kept whole.
    pub(crate) fn entry(&self, whole: &[Entry]) -> Entry
        requires { FitsIn (length whole.now) self.now }
        ensures { result ≡ entry_of whole.now self.now }
    {
        let Brief {
            processor,
            space,
            said,
        } = *self;
        match said {
            Said::Accessed {
                store,
                hit,
                size,
                number,
                address,
                word,
            } => accessed(processor, space, store, hit, size, number, address, word),
            Said::Filled {
                held,
                wired,
                page,
                frame,
                low,
                high,
                cap,
            } => {
                let want = Want {
                    low,
                    high,
                    cap,
                    wired,
                };
                on_both(processor, space, filled(held, page, frame, want))
            }
            Said::Given { page, frame } => on_both(processor, space, What::Give { page, frame }),
            Said::PagedOut { written, page } => {
                on_space(processor, space, What::Out { page, written })
            }
            Said::Claimed {
                writing,
                owner,
                page,
                frame,
                wanted,
            } => on_both(
                processor,
                space,
                claimed(owner, page, frame, wanted, writing),
            ),
            Said::Whole(place) => Entry {
                processor,
                ..whole[place]
            },
        }
    }

    /// The number of the call that its entry answers, and the answer, where the entry is an answer of the processor.
    pub(crate) fn answer_by(&self, whole: &[Entry], processor: u32) -> Option<(u32, Answered)>
        requires { FitsIn (length whole.now) self.now }
        ensures { result ≡ answer_of processor (entry_of whole.now self.now) }
    {
        // Most entries that are looked at are another processor's: these are told by their briefs alone.
        if self.processor != processor {
            return None;
        }
        self.answer(whole)
    }

    /// The number of the call that its entry answers, and the answer, where the entry is an answer.
    fn answer(&self, whole: &[Entry]) -> Option<(u32, Answered)>
        requires { FitsIn (length whole.now) self.now }
        ensures { result ≡ answer_in (entry_of whole.now self.now).what }
    {
        match self.said {
            Said::Accessed {
                store,
                hit,
                size,
                number,
                word,
                ..
            } => Some((number, answered(store, word, hit, size))),
            Said::Whole(place) => answer_in(&whole[place].what),
            _ => None,
        }
    }
}

/// A load that a word answered, or a store of it that was done.
fn accessed(
    processor: u32,
    space: u32,
    store: bool,
    hit: bool,
    size: Size,
    number: u32,
    address: u64,
    word: u64,
) -> Entry
    ensures { result ≡ on_space processor space (Answer number (call_of store space address word) (answered_of store word hit size)) }
{
    let call = if store {
        Call::Store {
            space,
            address,
            word,
        }
    } else {
        Call::Load { space, address }
    };
    let what = What::Answer {
        number,
        call,
        answered: answered(store, word, hit, size),
    };
    on_space(processor, space, what)
}

/// What a load was answered by a word, or a store of it that was done.
fn answered(store: bool, word: u64, hit: bool, size: Size) -> Answered
    ensures { result ≡ answered_of store word hit size }
{
    let reply = if store {
        Reply::Done
    } else {
        Reply::Value(word)
    };
    Answered {
        reply,
        hit,
        size: Some(size),
    }
}

/// A page got a frame.
fn filled(held: bool, page: u32, frame: u32, want: Want) -> What
    ensures { result ≡ fill_of held page frame want }
{
    if held {
        What::UseHeld { page, frame, want }
    } else {
        What::Take { page, frame, want }
    }
}

/// The frame of a page was claimed for a need.
fn claimed(owner: u32, page: u32, frame: u32, wanted: u32, writing: bool) -> What
    ensures { result ≡ claim_of owner page frame wanted writing }
{
    let need = Need {
        page: wanted,
        writing,
    };
    What::Claim {
        space: owner,
        page,
        frame,
        need: Some(need),
    }
}

/// What is said of an entry on this space.
fn said_of(space: u32, entry: &Entry) -> Option<Said>
    requires { entry.now.space ≡ Some space }
    ensures { IfSome result (λ said. Says entry.now (brief_of entry.now.processor space said)) }
{
    if entry.frames {
        of_both(&entry.what)
    } else {
        of_space(space, &entry.what)
    }
}

/// What is said of what happened to a space alone.
fn of_space(space: u32, what: &What) -> Option<Said>
    ensures { IfSome result (λ said. (c : ℕ) → Says (on_space c space what.now) (brief_of c space said)) }
{
    match what {
        What::Answer {
            number,
            call,
            answered,
        } if call.space() == space => access_of(*number, call, answered),
        What::Out { page, written } => Some(Said::PagedOut {
            written: *written,
            page: *page,
        }),
        _ => None,
    }
}

/// What is said of a load that a word answered, or of a store that was done.
fn access_of(number: u32, call: &Call, answered: &Answered) -> Option<Said>
    ensures { IfSome result (λ said. (c : ℕ) → Says (on_space c (space_of_call call.now) (Answer number call.now answered.now)) (brief_of c (space_of_call call.now) said)) }
{
    let size = answered.size?;
    let (store, address, word) = match (*call, answered.reply) {
        (Call::Load { address, .. }, Reply::Value(word)) => (false, address, word),
        (Call::Store { address, word, .. }, Reply::Done) => (true, address, word),
        _ => return None,
    };
    Some(Said::Accessed {
        store,
        hit: answered.hit,
        size,
        number,
        address,
        word,
    })
}

/// What is said of what happened to a space and the frames.
fn of_both(what: &What) -> Option<Said>
    ensures { IfSome result (λ said. (c space : ℕ) → Says (on_both c space what.now) (brief_of c space said)) }
{
    match what {
        What::Take { page, frame, want } => Some(filled_by(false, *page, *frame, want)),
        What::UseHeld { page, frame, want } => Some(filled_by(true, *page, *frame, want)),
        What::Give { page, frame } => Some(Said::Given {
            page: *page,
            frame: *frame,
        }),
        What::Claim {
            space,
            page,
            frame,
            need: Some(need),
        } => Some(Said::Claimed {
            writing: need.writing,
            owner: *space,
            page: *page,
            frame: *frame,
            wanted: need.page,
        }),
        _ => None,
    }
}

/// What is said of a page that got a frame.
fn filled_by(held: bool, page: u32, frame: u32, want: &Want) -> Said
    ensures { (c space : ℕ) → Says (on_both c space (fill_of held page frame want.now)) (brief_of c space result) }
{
    Said::Filled {
        held,
        wired: want.wired,
        page,
        frame,
        low: want.low,
        high: want.high,
        cap: want.cap,
    }
}

/// What happened to a space.
fn on_space(processor: u32, space: u32, what: What) -> Entry
    ensures { result ≡ on_space processor space what }
{
    Entry {
        processor,
        space: Some(space),
        frames: false,
        what,
    }
}

/// What happened to a space and the frames.
fn on_both(processor: u32, space: u32, what: What) -> Entry
    ensures { result ≡ on_both processor space what }
{
    Entry {
        processor,
        space: Some(space),
        frames: true,
        what,
    }
}
