ghost use Rattle.std.specs.Prelude.{◌≡◌, ◌≤◌, vec_len, length};
ghost use Rattle.pager_model.specs.Bounds.{most_spaces, most_actors};
ghost use Rattle.pager_model.specs.SizeSets.{all_sizes};

use crate::sizes::Sizes;
use std::marker::Model;

/// What a history is legal for.
#[derive(Drop)]
pub struct Setting {
    frames: u32,
    sizes: Sizes,
    marks: Vec<u32>,
    told: Vec<bool>,
    faults: Vec<u64>,
}

impl Model for Setting {
    ghost use Rattle.pager_model.specs.Settings.{Given};

    ghost Value = { Given };

    ghost view = { λ s. record { frames = s.frames; sizes = s.sizes; marks = s.marks.items; told = s.told.items; faults = s.faults.items } };
}

impl Setting {
    /// The number of frames; for each processor 0 where it makes calls, and a daemon's low mark; and for each space
    /// whether its store tells its copies, and its store's count of faults at entry. All four page sizes are there.
    pub fn of(frames: u32, marks: Vec<u32>, told: Vec<bool>, faults: Vec<u64>) -> Setting
        requires spaces { (1 ≤ vec_len told) × (vec_len told ≤ most_spaces) }
        requires counts { vec_len faults ≡ vec_len told }
        requires processors { (1 ≤ vec_len marks) × (vec_len marks ≤ most_actors) }
        ensures { result ≡ record { frames = frames; sizes = all_sizes; marks = marks.items; told = told.items; faults = faults.items } }
    {
        Setting {
            frames,
            sizes: Sizes::all(),
            marks,
            told,
            faults,
        }
    }

    /// The same with these page sizes.
    pub fn with_sizes(self, sizes: Sizes) -> Setting
        ensures { result ≡ record self { sizes = sizes } }
    {
        Setting { sizes, ..self }
    }

    /// The number of spaces.
    pub fn spaces(&self) -> usize
        ensures { result ≡ length self.now.told }
    {
        self.told.len()
    }
}
