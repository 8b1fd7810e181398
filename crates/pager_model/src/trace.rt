ghost use Rattle.std.specs.Prelude.{◌≡◌, ◌≤◌, All, length};
ghost use Rattle.pager_model.specs.Showing.{actors};
ghost use Rattle.pager_model.specs.TraceText.{HasText, IsLine};
ghost use Rattle.pager_model.specs.Bounds.{most_calls};

use crate::call::{Call, Line};
use crate::sizes::Sizes;
use std::marker::Model;

/// What a paging daemon keeps free, and how many turns it makes.
#[derive(Clone, Copy, Debug, PartialEq, Eq)]
pub struct Daemon {
    pub low: u32,
    pub turns: u32,
}

/// What is done at one go: by a processor of a trace a call, and by its daemon a turn of this low mark.
#[derive(Clone, Copy)]
pub enum Job {
    Call(Call),
    Turn { mark: u32 },
}

/// A trace: the version of its text, the frames, processors, spaces and page sizes of a run, its daemon where it has one, and the calls in the order of
/// their lines.
///
/// Every trace has a text of the grammar, so what it holds is within the grammar's ranges.
#[derive(Drop)]
pub struct Trace {
    version: u32,
    frames: u32,
    processors: u32,
    spaces: u32,
    sizes: Sizes,
    daemon: Option<Daemon>,
    calls: Vec<Line>,
}

impl Model for Trace {
    ghost use Rattle.pager_model.specs.Scripts.{Script};

    ghost Value = { Script };

    ghost use Rattle.pager_model.specs.TraceText.{HasText};

    ghost view = { λ t. record { version = t.version; frames = t.frames; processors = t.processors; spaces = t.spaces; sizes = t.sizes; daemon = t.daemon; calls = t.calls.items } };

    ghost invariant = { λ t. HasText (record { version = t.version; frames = t.frames; processors = t.processors; spaces = t.spaces; sizes = t.sizes; daemon = t.daemon; calls = t.calls.items }) };
}

impl Trace {
    /// A trace of what has a text of the grammar.
    pub fn of(
        version: u32,
        frames: u32,
        processors: u32,
        spaces: u32,
        sizes: Sizes,
        daemon: Option<Daemon>,
        calls: Vec<Line>,
    ) -> Trace
        requires { HasText (record { version = version; frames = frames; processors = processors; spaces = spaces; sizes = sizes; daemon = daemon; calls = calls.items }) }
        ensures { result ≡ record { version = version; frames = frames; processors = processors; spaces = spaces; sizes = sizes; daemon = daemon; calls = calls.items } }
    {
        Trace {
            version,
            frames,
            processors,
            spaces,
            sizes,
            daemon,
            calls,
        }
    }

    /// The version of its text: 1, which has all four page sizes, 2, which names them, or 3, which also has calls to discard, wire and unwire.
    pub fn version(&self) -> u32
        ensures version { result ≡ self.now.version }
        ensures text { HasText self.now }
    {
        self.version
    }

    /// How many frames there are.
    pub fn frames(&self) -> u32
        ensures frames { result ≡ self.now.frames }
        ensures text { HasText self.now }
    {
        self.frames
    }

    /// How many processors make calls.
    pub fn processors(&self) -> u32
        ensures processors { result ≡ self.now.processors }
        ensures text { HasText self.now }
    {
        self.processors
    }

    /// How many spaces there are.
    pub fn spaces(&self) -> u32
        ensures spaces { result ≡ self.now.spaces }
        ensures text { HasText self.now }
    {
        self.spaces
    }

    /// Which page sizes there are.
    pub fn sizes(&self) -> Sizes
        ensures sizes { result ≡ self.now.sizes }
        ensures text { HasText self.now }
    {
        self.sizes
    }

    /// The daemon's line, where there is one.
    pub fn daemon(&self) -> Option<Daemon>
        ensures daemon { result ≡ self.now.daemon }
        ensures text { HasText self.now }
    {
        self.daemon
    }

    /// How many processors there are, with the daemon, which is the last.
    pub fn actors(&self) -> u32
        ensures actors { result ≡ actors self.now }
        ensures text { HasText self.now }
    {
        match self.daemon {
            Some(_) => self.processors + 1,
            None => self.processors,
        }
    }

    /// The calls, in the order of their lines.
    pub fn calls(&self) -> &[Line]
        ensures calls { result.now ≡ self.now.calls }
        ensures few { length result.now ≤ most_calls }
        ensures lines { All (IsLine self.now.version self.now.processors self.now.spaces) result.now }
        ensures text { HasText self.now }
    {
        self.calls.as_slice()
    }
}
