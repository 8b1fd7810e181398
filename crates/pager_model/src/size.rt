ghost use Rattle.std.specs.Prelude.{◌≡◌, ◌-◌, ◌<◌, ◌≤◌, ◌^◌};
ghost use Rattle.std.specs.Option.{SomeIff};

use std::marker::Model;

/// One of the four page sizes, by its level from 0 to 3: a page of level `k` is 8^k base pages.
///
/// Contracts see a size as its level.
#[derive(Clone, Copy, Debug, PartialEq, Eq, PartialOrd, Ord)]
pub struct Size {
    level: u8,
}

impl Model for Size {
    ghost use Rattle.std.specs.Prelude.{ℕ, ◌≤◌};

    ghost Value = { ℕ };

    ghost view = { λ s. s.level };

    ghost invariant = { λ s. s.level ≤ 3 };

    ghost inverse = { λ n. record { level = n } };
}

impl Size {
    /// The size of a level, and `None` above level 3.
    pub fn of(level: u8) -> Option<Size>
        ensures { SomeIff result (level ≤ 3) level }
    {
        if level <= 3 {
            Some(Size { level })
        } else {
            None
        }
    }

    /// The size of a level that is at most 3.
    pub fn at_level(level: u8) -> Size
        requires { level ≤ 3 }
        ensures { result ≡ level }
    {
        Size { level }
    }

    /// The next smaller of the four.
    pub fn smaller(&self) -> Size
        requires { 0 < self.now }
        ensures { result ≡ self.now - 1 }
    {
        Size {
            level: self.level - 1,
        }
    }

    /// The level, from 0 to 3.
    pub fn level(&self) -> u8
        ensures level { result ≡ self.now }
        ensures small { result ≤ 3 }
    {
        self.level
    }

    /// How many base pages it has: 1, 8, 64 or 512.
    pub fn pages(&self) -> u32
        ensures { result ≡ 8 ^ self.now }
    {
        match self.level {
            0 => 1,
            1 => 8,
            2 => 64,
            _ => 512,
        }
    }
}
