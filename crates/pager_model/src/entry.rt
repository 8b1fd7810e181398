use crate::call::Call;
use crate::reply::Answered;

/// Where a reservation for a page may lie: from page `low` to before page `high`, of at most `cap` pages.
#[derive(Clone, Copy, Debug, PartialEq, Eq)]
pub struct Want {
    pub low: u32,
    pub high: u32,
    pub cap: u32,
    /// Whether the page's region is wired.
    pub wired: bool,
}

/// The page that a claim is made for, and whether for a store.
#[derive(Clone, Copy, Debug, PartialEq, Eq)]
pub struct Need {
    pub page: u32,
    pub writing: bool,
}

/// A page whose frame is claimed, and that frame.
#[derive(Clone, Copy, Debug, PartialEq, Eq)]
pub struct Victim {
    pub space: u32,
    pub page: u32,
    pub frame: u32,
}

/// What happened in one atomic step. Pages are of the entry's space.
#[derive(Clone, Copy, Debug, PartialEq, Eq)]
pub enum What {
    /// The processor's call of this number, counted from 0, was answered.
    Answer {
        number: u32,
        call: Call,
        answered: Answered,
    },
    /// A page was paged out: written to its copy where it was dirty.
    Out {
        page: u32,
        written: bool,
    },
    /// The backing store failed, for the `count`th time.
    Failed {
        page: u32,
        writing: bool,
        count: u64,
    },
    /// A page got a frame.
    Take {
        page: u32,
        frame: u32,
        want: Want,
    },
    /// A page gave its frame up.
    Give {
        page: u32,
        frame: u32,
    },
    /// The pages of a range gave their frames up.
    Clear {
        first: u32,
        length: u32,
    },
    /// The frame of a page of some space was claimed, for a call's need or to free it.
    Claim {
        space: u32,
        page: u32,
        frame: u32,
        need: Option<Need>,
    },
    /// A page got a frame in place of the one that the processor held.
    UseHeld {
        page: u32,
        frame: u32,
        want: Want,
    },
    /// The processor let its held frame go free.
    DropHeld {
        frame: u32,
    },
    /// The processor found the frame that it had claimed in its hand.
    Got {
        frame: u32,
    },
    /// The processor claims the frame no longer.
    Unclaim {
        frame: u32,
    },
    /// No frame could be had: how many are wired, claimed, and held.
    Refused {
        wired: u32,
        claimed: u32,
        held: u32,
    },
    /// The frames of a range's pages were wired, or were no longer.
    Pin {
        first: u32,
        length: u32,
        wired: bool,
    },
    /// Of the pages of a range this is the lowest whose frame is claimed, so that none was wired.
    Kept {
        first: u32,
        length: u32,
        page: u32,
        frame: u32,
    },
    /// The daemon ended a turn. Short where frames are still short and one could be evicted.
    Rest {
        short: bool,
    },
}

/// An entry of a history: who made it, which parts it names, and what happened.
#[derive(Clone, Copy, Debug, PartialEq, Eq)]
pub struct Entry {
    pub processor: u32,
    /// The space that it names, if it names one.
    pub space: Option<u32>,
    /// Whether it names the frames.
    pub frames: bool,
    pub what: What,
}

/// An entry with its place in the history, counted from 0.
#[derive(Clone, Copy, Debug, PartialEq, Eq)]
pub struct Numbered {
    pub number: u64,
    pub entry: Entry,
}
