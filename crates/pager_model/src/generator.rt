//! Drawn numbers.

ghost use Rattle.std.specs.Prelude.{◌≡◌, ◌<◌};
ghost use Rattle.pager_model.specs.Schedules.{next_state, drawn};

use std::marker::Model;

/// What Knuth's generator of MMIX multiplies by.
const MULTIPLIER: u64 = 6_364_136_223_846_793_005;

/// What it adds then.
const INCREMENT: u64 = 1_442_695_040_888_963_407;

/// The low bits that a drawn number leaves out, which repeat early.
const LOW_BITS: u32 = 33;

/// Draws numbers from a seed, by Knuth's generator of MMIX.
#[derive(Drop)]
pub struct Generator {
    state: u64,
}

impl Model for Generator {
    ghost use Rattle.std.specs.Prelude.{ℕ};

    ghost Value = { ℕ };

    ghost view = { λ g. g.state };
}

impl Generator {
    /// A generator that begins with this state.
    pub fn of(seed: u64) -> Generator
        ensures { result ≡ seed }
    {
        Generator { state: seed }
    }

    /// Draws a number of 64 bits, which is the next state.
    pub fn word(&mut self) -> u64
        ensures state { self.new ≡ next_state self.old }
        ensures word { result ≡ next_state self.old }
    {
        self.state = self.state.wrapping_mul(MULTIPLIER).wrapping_add(INCREMENT);
        self.state
    }

    /// Draws a number below `n`.
    pub fn draw(&mut self, n: u32) -> u32
        requires { 0 < n }
        ensures state { self.new ≡ next_state self.old }
        ensures drawn { result ≡ drawn self.old n }
        ensures below { result < n }
    {
        ((self.word() >> LOW_BITS) % u64::from(n)) as u32
    }
}
