//! The places of a processor in the sequence of a call, or in a turn.

use pager_model::Victim;

/// A load or a store at a page of a space, and whether it is a store, where its entries have told that.
#[derive(Clone, Copy)]
pub struct Access {
    pub space: u32,
    pub page: u32,
    pub writing: Option<bool>,
}

/// What a frame is claimed for: an access, or a daemon's turn of this low mark with so many evictions made before.
#[derive(Clone, Copy)]
pub enum Purpose {
    ForAccess(Access),
    ForTurn { mark: u32, evictions: u32 },
}

/// Where a processor is in the sequence of a call, or in a turn.
#[derive(Clone, Copy)]
pub enum Doing {
    /// No call is in progress.
    Idle,
    /// A daemon looks for frames to free.
    Looking {
        mark: u32,
        evictions: u32,
    },
    /// The pages of a range gave their frames up, and the unmap or the discard is done next.
    Cleared {
        space: u32,
        first: u32,
        length: u32,
    },
    /// The frames of a range's pages are wired, or no longer, and the wire or unwire is done next.
    Pinned {
        space: u32,
        first: u32,
        length: u32,
        wired: bool,
    },
    /// The frame of this page of a range is claimed, and the answer of the wire says so next.
    Blocked {
        space: u32,
        first: u32,
        length: u32,
        page: u32,
    },
    /// The write of a sync or an evict failed.
    Uncopied {
        space: u32,
        page: u32,
        count: u64,
    },
    /// The page has this frame, and its copy is read in next.
    Filling {
        access: Access,
        frame: u32,
    },
    /// The read failed, and the page gives the frame up next.
    Unfilling {
        access: Access,
        frame: u32,
        count: u64,
    },
    /// The victim's frame is claimed.
    Claiming {
        purpose: Purpose,
        victim: Victim,
    },
    /// The victim's page is equal to its copy.
    Emptied {
        purpose: Purpose,
        victim: Victim,
    },
    /// The write of the victim's page failed.
    Unwritten {
        purpose: Purpose,
        victim: Victim,
        count: u64,
    },
    /// The victim's frame is held.
    Holding {
        purpose: Purpose,
        victim: Victim,
    },
    /// The held frame was not needed any more.
    Late(Access),
    /// A store failed, of this space and for the `count`-th time.
    Faulted {
        access: Access,
        space: u32,
        count: u64,
    },
    /// There was no memory to page out the victim, which was of this space.
    Lacking {
        access: Access,
        space: u32,
    },
    /// No frame could be had.
    Refusing {
        wired: u32,
        claimed: u32,
        held: u32,
    },
}
