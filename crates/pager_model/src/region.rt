ghost use Rattle.std.specs.Prelude.{◌≡◌};
ghost use Rattle.pager_model.specs.Regions.{is_wired};

/// What a page may be used for. The right to write includes the right to read.
#[derive(Clone, Copy, Debug, Default, PartialEq, Eq)]
pub enum Rights {
    #[default]
    NoAccess,
    Read,
    Write,
}

/// How a region behaves: a fixed length, a length that may grow, or pages that are never evicted.
#[derive(Clone, Copy, Debug, Default, PartialEq, Eq)]
pub enum Kind {
    #[default]
    Fixed,
    Growing,
    Wired,
}

/// A run of pages of a space that calls may use. Lengths are in base pages.
#[derive(Clone, Copy, Debug, Default, PartialEq, Eq)]
pub struct Region {
    pub first: u32,
    pub length: u32,
    pub kind: Kind,
    /// The rights that each of its pages begins with.
    pub rights: Rights,
    /// Whether a call keeps its pages in their frames, whatever its kind.
    pub pinned: bool,
}

impl Region {
    /// Whether its pages are never evicted.
    pub fn is_wired(&self) -> bool
        ensures { result ≡ is_wired self.now }
    {
        matches!(self.kind, Kind::Wired) || self.pinned
    }
}
