//! What the words behind the program's name ask for.

ghost use Rattle.std.specs.Prelude.{◌≡◌, ◌%◌, ◌≤◌, IfSome};
ghost use Rattle.from_lackey.specs.Frames.{AreFrames};

use pager_model::Sizes;
use trace_lines::any_number;

/// How many frames the trace has, its page sizes, and whether instructions are loaded.
#[derive(Clone, Copy, Debug)]
pub struct Options {
    pub frames: u32,
    pub sizes: Sizes,
    pub instructions: bool,
    ghost few: { AreFrames frames },
}

impl Options {
    /// What is asked for by no word.
    pub fn new() -> Options
        ensures { AreFrames result.frames }
    {
        Options {
            frames: 8192,
            sizes: Sizes::all(),
            instructions: true,
        }
    }

    /// The same, of so many frames.
    fn of_frames(self, frames: u32) -> Options
        requires { AreFrames frames }
    {
        Options {
            frames,
            sizes: self.sizes,
            instructions: self.instructions,
        }
    }
}

/// The options that words are.
pub fn options_of(words: &[&str]) -> Option<Options> {
    let mut options = Options::new();
    let mut rest = words;
    while let [name, behind @ ..] = rest {
        match (*name, behind) {
            ("--frames", [frames, behind @ ..]) => {
                options = options.of_frames(frames_of(frames)?);
                rest = behind;
            }
            ("--sizes", [sizes, behind @ ..]) => {
                options.sizes = sizes_of(sizes)?;
                rest = behind;
            }
            ("--no-instructions", _) => {
                options.instructions = false;
                rest = behind;
            }
            _ => return None,
        }
    }
    Some(options)
}

/// The number of frames that a word is.
fn frames_of(word: &str) -> Option<u32>
    ensures { IfSome result AreFrames }
{
    match any_number(word.as_bytes()) {
        Ok(frames) if 512 <= frames && frames <= 32_768 && frames % 512 == 0 => Some(frames as u32),
        _ => None,
    }
}

/// The page sizes that a word names.
fn sizes_of(word: &str) -> Option<Sizes> {
    match word {
        "0" => Some(Sizes::of(false, false, false)),
        "01" => Some(Sizes::of(true, false, false)),
        "02" => Some(Sizes::of(false, true, false)),
        "03" => Some(Sizes::of(false, false, true)),
        "012" => Some(Sizes::of(true, true, false)),
        "013" => Some(Sizes::of(true, false, true)),
        "023" => Some(Sizes::of(false, true, true)),
        "0123" => Some(Sizes::all()),
        _ => None,
    }
}
