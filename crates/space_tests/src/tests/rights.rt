//! The rights of pages, in worked rows.
use super::{NO_MEMORY, count, rights_of, words};
use page_rights::PageRights;
use pager_model::PAGES;

/// Ranges that get rights in turn, and pages, from one to before another, that have such rights then. A dash is for no rights of their own.
const ROWS: &str = "\
are 0 1048576 -
set 100 300 read a part of a block
are 0 100 -
are 100 400 read
are 400 1048576 -
set 300 1000 none a part of a block, a whole one, and a part
are 0 100 -
are 100 300 read
are 300 1300 none
are 1300 1048576 -
set 0 512 write a whole block of which parts differ
are 0 512 write
are 512 1300 none
set 511 2 - the last page of a block and the first of the next
are 0 511 write
are 511 513 -
are 513 1300 none
set 600 0 read no page
set 1048576 0 read
are 513 1300 none
are 1300 1048576 -
set 1048575 1 read the last page
are 1300 1048575 -
are 1048575 1048576 read
set 0 1048576 write the whole space
are 0 1048576 write
set 1024 512 read a whole block
set 1030 4 write
are 512 1024 write
are 1024 1030 read
are 1030 1034 write
are 1034 1536 read
are 1536 1048576 write
";

/// Whether the pages from one to before another have these rights.
fn are(rights: &PageRights, first: u32, end: u32, word: &str) -> bool {
    let wanted = rights_of(word);
    for page in first..end.min(PAGES) {
        if rights.get(page) != wanted {
            return false;
        }
    }
    true
}

/// Gives a range these rights, where it lies in a space, and says whether it does.
fn set(rights: &mut PageRights, first: u32, length: u32, word: &str) -> bool {
    if first > PAGES || length > PAGES - first {
        return false;
    }
    rights.set(first, length, rights_of(word));
    true
}

/// Whether a row goes as it says.
fn goes(rights: &mut PageRights, row: &str) -> bool {
    let [call, first, second, word, ..] = words(row);
    let (first, second) = (count(first), count(second));
    match call {
        "set" => set(rights, first, second, word),
        _ => are(rights, first, second, word),
    }
}

#[test]
fn a_range_gets_rights_and_other_pages_keep_theirs(rt: HostRuntime) {
    let mut rights = PageRights::create(rt.alloc()).expect(&rt, NO_MEMORY);
    for row in ROWS.lines() {
        assert!(rt; goes(&mut rights, row), "{row}");
    }
}
