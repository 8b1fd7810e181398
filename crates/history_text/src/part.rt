//! The word of the parts that an entry names.

ghost use Rattle.std.specs.Prelude.{◌≡◌, ◌≢◌, ◌≤◌, ◌^◌, ℕ, Bool, Option, IfSome, IfNone};
ghost use Rattle.pager_model.specs.PrintedText.{part_word};
ghost use Rattle.history_text.specs.HistoryText.{IsPart};

use crate::word::below;

/// The parts that an entry names: a space, the frames, or both.
#[derive(Clone, Copy)]
pub struct Part {
    pub space: Option<u32>,
    pub frames: bool,
}

/// The parts that a word names, where there are so many spaces.
pub fn part_of(word: &[u8], spaces: u32) -> Option<Part>
    ensures some { IfSome result (λ part. word.now ≡ part_word part.space part.frames) }
    ensures is { IfSome result (λ part. IsPart spaces part.space part.frames) }
    ensures none { IfNone result ((space : Option ℕ) (frames : Bool) → IsPart spaces space frames → word.now ≢ part_word space frames) }
{
    if word == b"f".as_slice() {
        return Some(Part {
            space: None,
            frames: true,
        });
    }
    let digits = word.strip_prefix(b"s".as_slice())?;
    match digits.strip_suffix(b"+f".as_slice()) {
        Some(digits) => {
            let space = below(digits, spaces)?;
            Some(Part {
                space: Some(space),
                frames: true,
            })
        }
        None => {
            let space = below(digits, spaces)?;
            Some(Part {
                space: Some(space),
                frames: false,
            })
        }
    }
}
