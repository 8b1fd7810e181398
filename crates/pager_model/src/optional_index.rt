ghost use Rattle.std.specs.Prelude.{◌≡◌, ◌<◌, Some};
ghost use Rattle.pager_model.specs.OptionalIndices.{no_index};

use std::marker::Model;

/// An index, or none, in four bytes. An `Option<u32>` takes eight, which tells where there is one for each frame.
///
/// Contracts see it as the option.
#[derive(Clone, Copy, PartialEq, Eq)]
pub struct OptionalIndex {
    /// The index, or `u32::MAX` where there is none.
    kept: u32,
}

impl Model for OptionalIndex {
    ghost use Rattle.std.specs.Prelude.{ℕ, Option};
    ghost use Rattle.pager_model.specs.OptionalIndices.{index_in, kept_index};

    ghost Value = { Option ℕ };

    ghost view = { λ i. index_in i.kept };

    ghost inverse = { λ index. record { kept = kept_index index } };
}

impl OptionalIndex {
    /// No index.
    pub const NONE: OptionalIndex = OptionalIndex { kept: u32::MAX };

    /// An index below 2^32 - 1.
    pub fn of(index: u32) -> OptionalIndex
        requires { index < no_index }
        ensures { result ≡ Some index }
    {
        OptionalIndex { kept: index }
    }

    /// The index, where there is one.
    pub fn get(&self) -> Option<u32>
        ensures { result ≡ self.now }
    {
        (self.kept != u32::MAX).then_some(self.kept)
    }
}
