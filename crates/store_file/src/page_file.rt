//! A file that counts the bytes that it says it took and gave.

ghost use Rattle.std.specs.Prelude.{◌≡◌, ◌+◌, ◌*◌, ◌^◌, ◌<◌, ◌≤◌, ◌==◌, true, is_some, if◌then◌else◌};
ghost use Rattle.store_file.specs.FileState.{fresh_file, moved, none_yet};

use std::marker::Model;
use std::os::unix::fs::FileExt;

/// How many bytes a page has.
pub(crate) const PAGE_BYTES: usize = pager_model::PAGE_BYTES as usize;

/// Where a byte of a page stands in the file.
fn offset(page: u32, byte: usize) -> u64
    requires { byte ≤ 8192 }
    ensures { result ≡ 8192 * page + byte }
{
    u64::from(page) * PAGE_BYTES as u64 + byte as u64
}

/// Bytes that a file took, or gave.
#[derive(Drop)]
pub(crate) struct Transferred {
    /// How many in all, at most 2^64 - 1.
    bytes: u64,
    /// Where the last of them ends in the file.
    end: u64,
    /// How many up to there followed one another, at most 2^64 - 1.
    row: u64,
}

impl Transferred {
    fn none() -> Transferred
        ensures { result ≡ none_yet }
    {
        Transferred {
            bytes: 0,
            end: 0,
            row: 0,
        }
    }

    /// Counts more of them, from an offset of the file on.
    fn count(&mut self, offset: u64, bytes: usize)
        requires { offset + bytes < 2 ^ 64 }
        ensures { self.new ≡ moved self.old offset bytes }
    {
        let bytes = bytes as u64;
        if offset != self.end {
            self.row = 0;
        }
        self.row = self.row.saturating_add(bytes);
        self.end = offset + bytes;
        self.bytes = self.bytes.saturating_add(bytes);
    }
}

/// A file, or none where it could not be opened. Each byte that it says it took or gave is counted here, so nobody above can leave one out
/// or add one.
#[derive(Drop)]
pub(crate) struct PageFile<F> {
    file: Option<F>,
    took: Transferred,
    gave: Transferred,
}

impl<F> Model for PageFile<F> {
    ghost use Rattle.std.specs.Prelude.{is_some};
    ghost use Rattle.store_file.specs.FileState.{FileSeen};

    ghost Value = { FileSeen };

    ghost view = { λ f. record { opened = is_some f.file; took = f.took; gave = f.gave } };
}

impl<F: FileExt + Drop> PageFile<F> {
    /// The file, of which nothing was asked so far.
    pub(crate) fn of(file: Option<F>) -> PageFile<F>
        ensures { result ≡ fresh_file (is_some file) }
    {
        PageFile {
            file,
            took: Transferred::none(),
            gave: Transferred::none(),
        }
    }

    /// Whether it could be opened.
    pub(crate) fn is_open(&self) -> bool
        ensures { result ≡ self.now.opened }
    {
        self.file.is_some()
    }

    /// Reads the bytes of a page from one on, from where that one stands, and answers how many the file says it gave: none where it fails.
    pub(crate) fn read_from(&mut self, page: u32, bytes: &mut [u8; PAGE_BYTES], at: usize) -> usize
        requires { at ≤ 8192 }
        ensures most { at + result ≤ 8192 }
        ensures counted { self.new ≡ (if result == 0 then self.old else record self.old { gave = moved self.old.gave (8192 * page + at) result }) }
        ensures there { 0 < result → self.old.opened ≡ true }
    {
        let Some(file) = &self.file else { return 0 };
        let offset = offset(page, at);
        match file.read_at(&mut bytes[at..], offset) {
            Ok(count) if count > 0 => {
                self.gave.count(offset, count);
                count
            }
            _ => 0,
        }
    }

    /// Writes the bytes of a page from one on to where that one stands, and answers how many the file says it took: none where it fails.
    pub(crate) fn write_from(&mut self, page: u32, bytes: &[u8; PAGE_BYTES], at: usize) -> usize
        requires { at ≤ 8192 }
        ensures most { at + result ≤ 8192 }
        ensures counted { self.new ≡ (if result == 0 then self.old else record self.old { took = moved self.old.took (8192 * page + at) result }) }
        ensures there { 0 < result → self.old.opened ≡ true }
    {
        let Some(file) = &self.file else { return 0 };
        let offset = offset(page, at);
        match file.write_at(&bytes[at..], offset) {
            Ok(count) if count > 0 => {
                self.took.count(offset, count);
                count
            }
            _ => 0,
        }
    }
}
