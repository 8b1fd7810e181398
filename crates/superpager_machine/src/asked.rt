//! What C asks for, by number.

ghost use Rattle.std.specs.Prelude.{◌≡◌};
ghost use Rattle.superpager_machine.specs.Asked.{kind_of, rights_of, sizes_of};

use pager_model::{Kind, Rights, Sizes};

/// How large a pager is, and which page sizes there are beside base pages: any number but 0 says that there is one.
#[repr(C)]
#[derive(Clone, Copy)]
pub struct MachineSetting {
    pub frames: u32,
    pub processors: u32,
    pub spaces: u32,
    pub pages_8: u32,
    pub pages_64: u32,
    pub pages_512: u32,
}

impl MachineSetting {
    /// The page sizes.
    pub(crate) fn sizes(&self) -> Sizes
        ensures { result ≡ sizes_of self.now }
    {
        Sizes::of(self.pages_8 != 0, self.pages_64 != 0, self.pages_512 != 0)
    }
}

/// The kind of a region of this number.
pub(crate) fn kind_of(kind: u32) -> Option<Kind>
    ensures { result ≡ kind_of kind }
{
    match kind {
        0 => Some(Kind::Fixed),
        1 => Some(Kind::Growing),
        2 => Some(Kind::Wired),
        _ => None,
    }
}

/// The rights of this number.
pub(crate) fn rights_of(rights: u32) -> Option<Rights>
    ensures { result ≡ rights_of rights }
{
    match rights {
        0 => Some(Rights::NoAccess),
        1 => Some(Rights::Read),
        2 => Some(Rights::Write),
        _ => None,
    }
}
