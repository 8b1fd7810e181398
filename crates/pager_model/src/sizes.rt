ghost use Rattle.std.specs.Prelude.{◌≡◌, true};
ghost use Rattle.pager_model.specs.SizeSets.{all_sizes, has_size, size_within, size_below};

use crate::size::Size;
use std::marker::Model;

/// Which page sizes there are: some of the four, and always base pages.
#[derive(Clone, Copy, Debug, PartialEq, Eq)]
pub struct Sizes {
    one: bool,
    two: bool,
    three: bool,
}

impl Model for Sizes {
    ghost use Rattle.pager_model.specs.SizeSets.{SizeSet};

    ghost Value = { SizeSet };

    ghost view = { λ z. record { one = z.one; two = z.two; three = z.three } };

    ghost inverse = { λ z. record { one = z.one; two = z.two; three = z.three } };
}

impl Sizes {
    /// Base pages, and the sizes of these levels.
    pub fn of(one: bool, two: bool, three: bool) -> Sizes
        ensures { result ≡ record { one = one; two = two; three = three } }
    {
        Sizes { one, two, three }
    }

    /// All four.
    pub fn all() -> Sizes
        ensures { result ≡ all_sizes }
    {
        Sizes::of(true, true, true)
    }

    /// Whether there is this size.
    pub fn has(&self, size: Size) -> bool
        ensures { result ≡ has_size self.now size }
    {
        match size.level() {
            0 => true,
            1 => self.one,
            2 => self.two,
            _ => self.three,
        }
    }

    /// The next smaller size, and `None` where it is the smallest.
    pub fn below(&self, size: Size) -> Option<Size>
        requires { has_size self.now size ≡ true }
        ensures { result ≡ size_below self.now size }
    {
        if size.level() == 0 {
            return None;
        }
        Some(self.within(size.smaller()))
    }

    /// The largest size there is that is at most this one.
    pub fn within(&self, size: Size) -> Size
        ensures { result ≡ size_within self.now size }
    {
        match size.level() {
            3 if self.three => size,
            2 | 3 if self.two => Size::at_level(2),
            1 | 2 | 3 if self.one => Size::at_level(1),
            _ => Size::at_level(0),
        }
    }
}
