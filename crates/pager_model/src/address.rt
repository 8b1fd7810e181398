//! Addresses of a space: they count bytes.

ghost use Rattle.std.specs.Prelude.{◌≡◌, ◌<◌};
ghost use Rattle.pager_model.specs.Bounds.{space_bytes, space_pages};
ghost use Rattle.pager_model.specs.Flat.{page_of, word_of};

/// The bytes of a base page.
pub const PAGE_BYTES: u64 = 8192;

/// The bytes of a word.
pub const WORD_BYTES: u64 = 8;

/// The page of an address.
pub fn page_of(address: u64) -> u32
    requires { address < space_bytes }
    ensures page { result ≡ page_of address }
    ensures in_space { result < space_pages }
{
    (address / PAGE_BYTES) as u32
}

/// The number of an address's word in its page.
pub fn word_of(address: u64) -> usize
    ensures word { result ≡ word_of address }
    ensures in_page { result < 1024 }
{
    (address % PAGE_BYTES / WORD_BYTES) as usize
}
