//! The bytes of a page, read from a file and written to it in pieces.

ghost use Rattle.std.specs.Int.{from_le_bytes, to_le_bytes, w64};
ghost use Rattle.std.specs.Prelude.{◌≡◌, ℕ, ◌+◌, ◌*◌, ◌/◌, ◌%◌, ◌<◌, true, length, slice_index, slice_range};
ghost use Rattle.store_file.specs.FileState.{MovesPage};

use crate::page_file::{PAGE_BYTES, PageFile};
use std::os::unix::fs::FileExt;

/// Puts the bytes of words into a page's, each word's lowest byte first.
pub(crate) fn put_words(words: &[u64], bytes: &mut [u8; PAGE_BYTES])
    requires { length words.now ≡ 1024 }
    ensures { (at : ℕ) → at < 8192 → slice_index bytes.new at ≡ slice_index (to_le_bytes w64 (slice_index words.now (at / 8))) (at % 8) }
{
    for (index, word) in words.iter().enumerate() {
        let first = 8 * index;
        bytes[first..first + 8].copy_from_slice(&word.to_le_bytes());
    }
}

/// The word of this number that a page's bytes are of.
fn word_at(bytes: &[u8; PAGE_BYTES], index: usize) -> u64
    requires { index < 1024 }
    ensures { result ≡ from_le_bytes w64 (slice_range bytes.now (8 * index) (8 * index + 8)) }
{
    let Some(piece) = bytes[8 * index..].first_chunk::<8>() else {
        unreachable!()
    };
    u64::from_le_bytes(*piece)
}

/// The words that a page's bytes are of.
pub(crate) fn take_words(bytes: &[u8; PAGE_BYTES], words: &mut [u64])
    requires { length words.old ≡ 1024 }
    ensures { (i : ℕ) → i < 1024 → slice_index words.new i ≡ from_le_bytes w64 (slice_range bytes.now (8 * i) (8 * i + 8)) }
{
    for (index, word) in words.iter_mut().enumerate() {
        *word = word_at(bytes, index);
    }
}

/// Reads the bytes of a page, as many at a time as the file gives, and answers whether it gave all.
pub(crate) fn read_page<F: FileExt + Drop>(
    file: &mut PageFile<F>,
    page: u32,
    bytes: &mut [u8; PAGE_BYTES],
) -> bool
    ensures all { result ≡ true → MovesPage page file.old.gave file.new.gave }
    ensures took { file.new.took ≡ file.old.took }
    ensures opened { file.new.opened ≡ file.old.opened }
{
    let mut at = 0;
    while at < PAGE_BYTES {
        let count = file.read_from(page, bytes, at);
        if count == 0 {
            return false;
        }
        at += count;
    }
    true
}

/// Writes the bytes of a page, as many at a time as the file takes, and answers whether it took all.
pub(crate) fn write_page<F: FileExt + Drop>(
    file: &mut PageFile<F>,
    page: u32,
    bytes: &[u8; PAGE_BYTES],
) -> bool
    ensures all { result ≡ true → MovesPage page file.old.took file.new.took }
    ensures there { result ≡ true → file.old.opened ≡ true }
    ensures gave { file.new.gave ≡ file.old.gave }
    ensures opened { file.new.opened ≡ file.old.opened }
{
    let mut at = 0;
    while at < PAGE_BYTES {
        let count = file.write_from(page, bytes, at);
        if count == 0 {
            return false;
        }
        at += count;
    }
    true
}
