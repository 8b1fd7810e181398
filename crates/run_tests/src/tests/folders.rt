//! Copies in files of a folder.

use super::machine::{NO_MEMORY, halves, number};
use pager_model::WORDS;
use std::fs::{self, File};
use std::io;
use std::os::unix::fs::FileExt;
use std::test::Fail;
use store_core::{Copied, Store, StoreFailed};
use store_file::FileStore;

/// The words of a page: each another one, and other pages' words others. Those of number 0 are zero.
fn words_of(number: u64) -> [u64; WORDS] {
    let mut words = [0; WORDS];
    for (at, word) in words.iter_mut().enumerate() {
        *word = number.wrapping_mul(at as u64 + 0x0102_0304_0506_0708);
    }
    words
}

/// Whether a read of a page gives the words of a number.
fn gives<S: Store>(store: &mut S, page: u32, number: u64) -> bool {
    let mut words = [1; WORDS];
    match store.read(page, &mut words) {
        Ok(Copied::Words) => words == words_of(number),
        Ok(Copied::Zeros) => number == 0,
        Err(StoreFailed) => false,
    }
}

/// Whether a store does a step of a page: to `write` the words of a number, to `read` these, to `drop` the copies of so many pages from it on,
/// and to leave it `unread` or `unwritten`, as the fault of a number. So `write 62 1` is read: the words of number 1 are written to page 62; and
/// `drop 63 65`: the copies of the 65 pages from page 63 on are dropped.
fn does<S: Store>(store: &mut S, call: &str, page: u32, number: u32) -> bool {
    if call == "write" {
        return store.write(page, &words_of(u64::from(number))).is_ok();
    }
    if call == "read" {
        return gives(store, page, u64::from(number));
    }
    if call == "drop" {
        store.drop_pages(page, number);
        return true;
    }
    let mut words = [0; WORDS];
    let failed = if call == "unread" {
        store.read(page, &mut words).is_err()
    } else {
        store.write(page, &words).is_err()
    };
    failed && store.faults() == u64::from(number)
}

/// Whether it does all of these, in this order.
fn does_all<S: Store>(store: &mut S, steps: &str) -> bool {
    for step in steps.split("; ") {
        let (call, rest) = halves(step, " ");
        let (page, rest) = halves(rest, " ");
        if !does(store, call, number(page), number(rest)) {
            return false;
        }
    }
    true
}

/// Pages that are written, again, and dropped, round the ends of words of 64 pages; and one past the space.
const KEPT: &str =
    "read 62 0; write 62 1; write 63 2; write 64 3; write 127 4; write 128 5; write 1048575 6; read 62 1; \
read 1048575 6; write 62 7; read 62 7; read 61 0; drop 63 65; read 63 0; read 127 0; read 128 5; read 62 7; \
unwritten 1048576 1; read 1048576 0";

/// Nothing was ever written, so each read gives zeros.
const UNOPENED: &str = "unwritten 0 1; read 0 0; unwritten 0 2; unwritten 7 3";

#[test]
fn a_file_gives_back_what_was_written(rt: HostRuntime) -> Result<(), Fail> {
    let _ = fs::remove_dir_all(&rt, "kept");
    fs::create_dir(&rt, "kept")?;
    // The second store is over the same file, and the last has none.
    for (folder, steps) in [("kept", KEPT), ("kept", KEPT), ("no-folder", UNOPENED)] {
        let store = FileStore::create(&rt, rt.alloc(), folder, 3);
        assert!(rt;
            does_all(&mut store.expect(&rt, NO_MEMORY), steps),
            "{folder}"
        );
    }
    Ok(())
}

/// A file that takes and gives at most 1,000 bytes a call, and has no room past a byte.
#[derive(Drop)]
struct Narrow {
    file: File,
    room: u64,
}

impl FileExt for Narrow {
    fn read_at(&self, buf: &mut [u8], offset: u64) -> io::Result<usize> {
        let count = buf.len().min(1000);
        self.file.read_at(&mut buf[..count], offset)
    }

    fn write_at(&self, buf: &[u8], offset: u64) -> io::Result<usize> {
        if offset >= self.room {
            return Err(io::ErrorKind::StorageFull.into());
        }
        let count = buf.len().min(1000);
        self.file.write_at(&buf[..count], offset)
    }
}

/// The file has room for two pages and a part of a third, whose write is cut and then fails.
const FILLED: &str =
    "write 0 1; write 1 2; unwritten 2 1; unwritten 2 2; read 0 1; read 1 2; write 1 3; read 1 3";

#[test]
fn short_reads_and_writes_are_gone_on_with(rt: HostRuntime) -> Result<(), Fail> {
    let _ = fs::remove_file(&rt, "narrow");
    let file = File::options()
        .read(true)
        .write(true)
        .create(true)
        .open(&rt, "narrow")?;
    let narrow = Narrow { file, room: 20_000 };
    let mut store = FileStore::over(rt.alloc(), Some(narrow)).expect(&rt, NO_MEMORY);
    assert!(rt; does_all(&mut store, FILLED));
    // Another makes the file empty.
    fs::write(&rt, "narrow", b"")?;
    assert!(rt; does_all(&mut store, "unread 1 3; unread 0 4"));
    Ok(())
}
