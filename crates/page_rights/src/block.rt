//! What is kept of a block of 512 pages.

ghost use Rattle.std.specs.Prelude.{◌≡◌};
ghost use Rattle.page_rights.specs.Rights.{all_of, uniform};

use pager_model::Rights;

/// The rights that all pages of a block have, or that they differ. It takes a byte, so many blocks are written at once.
#[derive(Clone, Copy, PartialEq, Eq)]
pub enum Block {
    /// No page has rights of its own.
    Unset,
    /// No page may be used.
    Closed,
    /// Each page may be read.
    Reads,
    /// Each page may be read and written.
    Writes,
    /// The block's leaf says which each page has.
    Mixed,
}

impl Block {
    /// A block of which all pages have these rights, or none.
    pub(crate) fn uniform(rights: Option<Rights>) -> Block
        ensures { result ≡ uniform rights }
    {
        match rights {
            None => Block::Unset,
            Some(Rights::NoAccess) => Block::Closed,
            Some(Rights::Read) => Block::Reads,
            Some(Rights::Write) => Block::Writes,
        }
    }

    /// The rights that all its pages have, where no leaf says them.
    pub(crate) fn rights(self) -> Option<Rights>
        ensures { result ≡ all_of self }
    {
        match self {
            Block::Unset | Block::Mixed => None,
            Block::Closed => Some(Rights::NoAccess),
            Block::Reads => Some(Rights::Read),
            Block::Writes => Some(Rights::Write),
        }
    }
}
