//! What C asks for. A number stands for a test: any but 0 is true.

ghost use Rattle.std.specs.Prelude.{◌≡◌};
ghost use Rattle.superpager_c.specs.Statuses.{want_of, sizes_of};

use pager_model::{Sizes, Want};

/// How large a pool is, and which page sizes there are beside base pages.
#[repr(C)]
#[derive(Clone, Copy)]
pub struct PoolSetting {
    pub frames: u32,
    pub processors: u32,
    pub pages_8: u32,
    pub pages_64: u32,
    pub pages_512: u32,
}

impl PoolSetting {
    /// The page sizes.
    pub(crate) fn sizes(&self) -> Sizes
        ensures { result ≡ sizes_of self.now }
    {
        Sizes::of(self.pages_8 != 0, self.pages_64 != 0, self.pages_512 != 0)
    }
}

/// Where a reservation for a page may lie, and whether the page is wired.
#[repr(C)]
#[derive(Clone, Copy)]
pub struct PageWant {
    pub low: u32,
    pub high: u32,
    pub cap: u32,
    pub wired: u32,
}

impl PageWant {
    /// The want.
    pub(crate) fn want(&self) -> Want
        ensures { result ≡ want_of self.now }
    {
        Want {
            low: self.low,
            high: self.high,
            cap: self.cap,
            wired: self.wired != 0,
        }
    }
}
