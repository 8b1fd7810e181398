//! What is written of a stream.

ghost use Rattle.std.specs.Prelude.{◌≡◌};
ghost use Rattle.stream_run.specs.Reports.{every_in, is_of_curves};

/// What is written of a stream.
#[derive(Clone, Copy)]
pub enum StreamReport {
    /// The counts at its end; and before them, where it is asked for, those so far after each so many calls.
    Counts { every: Option<u32> },
    /// Of a trace of one processor: at its end the misses of images of each capacity from 1 to 4,096, with the run's tiles and with base pages alone.
    Curves,
}

impl StreamReport {
    /// Whether it is for traces of one processor alone, whose curves it has.
    pub fn is_of_curves(&self) -> bool
        ensures { result ≡ is_of_curves self.now }
    {
        matches!(self, StreamReport::Curves)
    }

    /// After how many calls each the counts so far are written, where they are.
    pub fn every(&self) -> Option<u32>
        ensures { result ≡ every_in self.now }
    {
        match self {
            StreamReport::Counts { every } => *every,
            StreamReport::Curves => None,
        }
    }
}
