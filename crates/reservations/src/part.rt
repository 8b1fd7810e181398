use pager_model::Extent;

/// One of the eight parts of a reservation that is split.
#[derive(Clone, Copy, Debug, PartialEq, Eq)]
pub struct Part {
    /// Its frames.
    pub extent: Extent,
    /// Whether it has no used place, so that its frames are free from now on.
    pub empty: bool,
}
