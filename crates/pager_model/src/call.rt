ghost use Rattle.std.specs.Prelude.{◌≡◌};
ghost use Rattle.pager_model.specs.Flat.{space_of_call};

use crate::region::{Kind, Rights};

/// A memory call on a space. Pages are base pages of 8,192 bytes, and an address is in bytes.
#[derive(Clone, Copy, Debug, PartialEq, Eq)]
pub enum Call {
    Map {
        space: u32,
        page: u32,
        length: u32,
        kind: Kind,
        rights: Rights,
    },
    Grow {
        space: u32,
        page: u32,
        by: u32,
    },
    Unmap {
        space: u32,
        page: u32,
    },
    Protect {
        space: u32,
        page: u32,
        length: u32,
        rights: Rights,
    },
    Load {
        space: u32,
        address: u64,
    },
    Store {
        space: u32,
        address: u64,
        word: u64,
    },
    Sync {
        space: u32,
        page: u32,
    },
    Evict {
        space: u32,
        page: u32,
    },
    Discard {
        space: u32,
        page: u32,
        length: u32,
    },
    Wire {
        space: u32,
        page: u32,
    },
    Unwire {
        space: u32,
        page: u32,
    },
}

impl Call {
    /// The space that the call is on.
    pub fn space(&self) -> u32
        ensures { result ≡ space_of_call self.now }
    {
        match *self {
            Call::Map { space, .. } => space,
            Call::Grow { space, .. } => space,
            Call::Unmap { space, .. } => space,
            Call::Protect { space, .. } => space,
            Call::Load { space, .. } => space,
            Call::Store { space, .. } => space,
            Call::Sync { space, .. } => space,
            Call::Evict { space, .. } => space,
            Call::Discard { space, .. } => space,
            Call::Wire { space, .. } => space,
            Call::Unwire { space, .. } => space,
        }
    }
}

/// A line of a trace: a processor's call.
#[derive(Clone, Copy, Debug, PartialEq, Eq)]
pub struct Line {
    pub processor: u32,
    pub call: Call,
}
