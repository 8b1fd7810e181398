//! Each crate's tests in a module: worked rows, a line of text each.
ghost use Rattle.std.specs.Prelude.{◌≡◌, min};

mod images;
mod rights;
mod rows;
mod space;
mod tiling;

use pager_model::{Rights, Size};
use std::str::SplitWhitespace;

/// What is said where there is no memory for a test.
const NO_MEMORY: &str = "no memory";

/// The size of a level, and above level 3 the largest.
fn size(level: u32) -> Size
    ensures { result ≡ min level 3 }
{
    Size::at_level(level.min(3) as u8)
}

/// The next word of a row, and an empty one behind the last.
fn word<'a>(words: &mut SplitWhitespace<'a>) -> &'a str {
    words.next().unwrap_or("")
}

/// The first eight words of a row, and empty ones behind its last.
fn words(row: &str) -> [&str; 8] {
    let mut words = row.split_whitespace();
    [
        word(&mut words),
        word(&mut words),
        word(&mut words),
        word(&mut words),
        word(&mut words),
        word(&mut words),
        word(&mut words),
        word(&mut words),
    ]
}

/// The number that a word names. None for a dash.
fn number(word: &str) -> Option<u32> {
    word.parse::<u32>().ok()
}

/// The number that a word names, or 0.
fn count(word: &str) -> u32 {
    number(word).unwrap_or(0)
}

/// The rights that a word names. None for a dash.
fn rights_of(word: &str) -> Option<Rights> {
    match word {
        "none" => Some(Rights::NoAccess),
        "read" => Some(Rights::Read),
        "write" => Some(Rights::Write),
        _ => None,
    }
}
