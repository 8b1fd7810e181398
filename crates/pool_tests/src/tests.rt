//! Each crate's tests in a module, in worked rows.
ghost use Rattle.std.specs.Prelude.{◌≡◌, min};

mod blocks;
mod chunks;
mod members;
mod numbers;
mod pool;
mod populations;
mod preferences;
mod reserved;
mod types;

use pager_model::Size;
use std::str::SplitWhitespace;

/// What is said where there is no memory for a test.
const NO_MEMORY: &str = "no memory";

/// The size of a level, and above level 3 the largest.
fn size(level: u8) -> Size
    ensures { result ≡ min level 3 }
{
    Size::at_level(level.min(3))
}

/// The next word of a row, and an empty one behind the last.
fn word<'a>(words: &mut SplitWhitespace<'a>) -> &'a str {
    words.next().unwrap_or("")
}

/// The first eight words of a table's row, and empty ones behind its last.
fn words(row: &str) -> [&str; 8] {
    let mut words = row.split_whitespace();
    [
        word(&mut words),
        word(&mut words),
        word(&mut words),
        word(&mut words),
        word(&mut words),
        word(&mut words),
        word(&mut words),
        word(&mut words),
    ]
}

/// The number that a word names. None for a dash.
fn number(word: &str) -> Option<u32> {
    word.parse::<u32>().ok()
}

/// The level that a word names, or 0.
fn level_of(word: &str) -> u8 {
    word.parse::<u8>().unwrap_or(0)
}

/// The number that a word names, or 0.
fn count(word: &str) -> u32 {
    number(word).unwrap_or(0)
}

/// Whether all words are this one.
fn are_all(words: &[u64], word: u64) -> bool {
    for &other in words {
        if other != word {
            return false;
        }
    }
    true
}
