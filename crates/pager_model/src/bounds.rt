//! The bounds that sizes and counts have.

/// The most spaces of a program.
pub const MOST_SPACES: u32 = 16;

/// The most processors of a trace.
pub const MOST_PROCESSORS: u32 = 16;

/// The most actors: the processors of a trace, and its daemon.
pub const MOST_ACTORS: usize = 17;

/// The most frames.
pub const MOST_FRAMES: u32 = 32_768;

/// The most calls of a trace.
pub const MOST_CALLS: u32 = 262_144;
