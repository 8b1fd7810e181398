/// Consecutive pages of a space: those from `first` to `first + length - 1`.
#[derive(Clone, Copy, Debug, Default, PartialEq, Eq)]
pub struct PageRange {
    pub first: u32,
    pub length: u32,
}
