use crate::size::Size;

/// What a call is answered.
#[derive(Clone, Copy, Debug, PartialEq, Eq)]
pub enum Reply {
    Done,
    /// The word that a load found.
    Value(u64),
    /// The page was equal to its copy already.
    Clean,
    /// The page was written to its copy.
    Written,
    /// No region has the page, or the range doesn't lie in one region.
    Unmapped,
    /// The page's rights, or its region's kind, don't allow the call.
    Denied,
    /// A region has one of the pages already.
    Overlap,
    /// The range ends past the space's last page.
    OutOfSpace,
    /// The region doesn't grow.
    NotGrowing,
    /// The space has 64 regions.
    RegionsFull,
    /// No frame could be had: how many are wired, claimed by a processor, and held by one.
    NoFrames { wired: u32, claimed: u32, held: u32 },
    /// The backing store of a space failed, for the `count`th time.
    StoreFault { space: u32, count: u64 },
    /// The backing store found no memory.
    NoMemory,
    /// Of the pages to be wired this is the lowest whose frame a processor claims.
    Busy { page: u32 },
}

/// A reply, and what the access found in its processor's translations.
#[derive(Clone, Copy, Debug, PartialEq, Eq)]
pub struct Answered {
    pub reply: Reply,
    /// Whether the page's translation was there. `false` where there is no size.
    pub hit: bool,
    /// The size of the page's translation after the access, for a load that is `Value` and a store that is `Done`.
    pub size: Option<Size>,
}
