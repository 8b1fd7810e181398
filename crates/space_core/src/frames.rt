//! The words of one frame.

ghost use Rattle.std.specs.Prelude.{◌≡◌, ◌<◌, length, slice_index_or, slice_set};
ghost use Rattle.store_core.specs.CopiedWords.{copied_words};

use pager_model::Frame;
use store_core::Copied;

/// A word of a frame.
pub fn word(frame: &Frame, index: usize) -> u64
    requires { index < 1024 }
    ensures { result ≡ slice_index_or frame.now.words index 0 }
{
    frame.words()[index]
}

/// Writes a word of a frame.
pub fn set_word(frame: &mut Frame, index: usize, word: u64)
    requires { index < 1024 }
    ensures count { length frame.old.words ≡ 1024 }
    ensures written { frame.new ≡ record {
      number = frame.old.number;
      words = slice_set frame.old.words index word;
    } }
{
    frame.words_mut()[index] = word;
}

/// Makes the copy that a read told of the frame's words.
pub fn set_copied(frame: &mut Frame, copied: Copied, words: &[u64])
    requires { length words.now ≡ 1024 }
    ensures { frame.new ≡ record { number = frame.old.number; words = copied_words copied words.now } }
{
    match copied {
        Copied::Words => frame.words_mut().copy_from_slice(words),
        Copied::Zeros => frame.clear(),
    }
}
