//! Frames, page sizes and sets of sizes.
use super::{NO_MEMORY, are_all, level_of, number, size, words};
use pager_model::{Frame, Size, Sizes, frames_of};
use std::process::Abort;

/// Whether a frame has this number, and 1,024 words that are zero.
fn is_fresh(frame: &Frame, number: u32) -> bool {
    let words = frame.words();
    frame.number() == number && words.len() == 1024 && are_all(words, 0)
}

/// Writes the last word of a frame, and says which words it has first and last then, and whether it is zero once it is cleared.
fn write_last(frame: &mut Frame, word: u64) -> Option<(u64, u64, bool)> {
    *frame.words_mut().last_mut()? = word;
    let (first, last) = (*frame.words().first()?, *frame.words().last()?);
    let number = frame.number();
    frame.clear();
    Some((first, last, is_fresh(frame, number)))
}

/// Whether frames, with the numbers from 0 on, are so at first, and keep what is written until they are cleared.
fn keep_until_cleared(frames: &mut [Frame]) -> bool {
    for (frame, number) in frames.iter_mut().zip(0..) {
        if !is_fresh(frame, number) || write_last(frame, 7) != Some((0, 7, true)) {
            return false;
        }
    }
    true
}

#[test]
fn frames_are_numbered_and_zero(rt: HostRuntime) {
    let mut frames = frames_of(rt.alloc(), 3).expect(&rt, NO_MEMORY);
    assert!(rt; frames.len() == 3 && keep_until_cleared(frames.as_mut_slice()));
}

/// The level and the pages of a size of this level, where there is one.
fn size_of(level: u8) -> Option<(u8, u32)> {
    let size = Size::of(level)?;
    Some((size.level(), size.pages()))
}

#[test]
fn sizes_have_powers_of_eight_pages(rt: HostRuntime) {
    for (level, pages) in [(0, 1), (1, 8), (2, 64), (3, 512)] {
        assert!(rt; size_of(level) == Some((level, pages)));
    }
    assert!(rt; size_of(4).is_none());
}

/// Of each set of sizes whether it has levels 1, 2 and 3, a 1 or a 0 each, and then the largest of its levels up to 0, up to 1, up to 2 and up to
/// 3. So `1 0 1 0 1 1 3` is read: the set has levels 1 and 3, and not 2; its largest level up to 0 is 0, up to 1 it is 1, up to 2 it is 1, and up
/// to 3 it is 3.
const SETS: &str = "\
0 0 0 0 0 0 0
1 0 0 0 1 1 1
0 1 0 0 0 2 2
1 1 0 0 1 2 2
0 0 1 0 0 0 3
1 0 1 0 1 1 3
0 1 1 0 0 2 3
1 1 1 0 1 2 3
";

/// The level below this one in a set of sizes that has it, and none where it hasn't.
fn below(sizes: Sizes, size: Size) -> Option<u32> {
    if !sizes.has(size) {
        return None;
    }
    let below = sizes.below(size)?;
    Some(u32::from(below.level()))
}

/// Whether a set of sizes has this level and those below it as its row says.
fn has_level(row: &[&str; 8], level: u8) -> bool {
    let sizes = Sizes::of(row[0] == "1", row[1] == "1", row[2] == "1");
    let largest = level_of(row[3 + level.min(3) as usize]);
    let below_it = if level > 0 && largest == level {
        number(row[2 + level.min(3) as usize])
    } else {
        None
    };
    let size = size(level);
    sizes.has(size) == (largest == level)
        && sizes.within(size).level() == largest
        && below(sizes, size) == below_it
}

#[test]
fn each_set_of_sizes_has_its_own_levels(rt: HostRuntime) {
    for row in SETS.lines() {
        for level in 0..4u8 {
            assert!(rt; has_level(&words(row), level), "level {level} of {row}");
        }
    }
}
