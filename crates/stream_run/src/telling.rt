//! When the counts so far are told, and what they are.

ghost use Rattle.std.specs.Prelude.{◌≡◌, ℕ, ◌≤◌, IfSome, List, length};
ghost use Rattle.pager_model.specs.declared.call.Line.{Line as CallLine};
ghost use Rattle.pager_model.specs.declared.entry.Entry.{Entry};
ghost use Rattle.pager_model.specs.Scripts.{Script};
ghost use Rattle.pager_model.specs.Stored.{Stored};
ghost use Rattle.pager_model.specs.Stores.{setting_over};
ghost use Rattle.stream_core.specs.Streaming.{CanStand, IsAfter};
ghost use Rattle.stream_run.specs.Steps.{CountsCall};
ghost use Rattle.stream_run.specs.Streams.{IsSoFar};

use report_text::SoFar;
use store_core::Store;
use stream_core::Stream;

/// When the counts so far are told: after each so many calls, where they are asked for.
#[derive(Clone, Copy)]
pub struct Telling {
    every: Option<u32>,
    // how many calls are to come before the next time
    left: u32,
}

impl Telling {
    /// Where no call was made.
    pub fn of(every: Option<u32>) -> Telling
        ensures every { result.every ≡ every }
        ensures left { IfSome every (λ n. result.left ≡ n) }
    {
        Telling {
            every,
            left: every.unwrap_or(0),
        }
    }

    /// Counts a call, and says whether the counts are told after it.
    pub fn is_due(&mut self) -> bool
        requires { IfSome self.old.every (λ n. 1 ≤ self.old.left) }
        ensures every { self.new.every ≡ self.old.every }
        ensures counts { CountsCall self.old.every self.old.left self.new.left result }
    {
        let Some(every) = self.every else {
            return false;
        };
        self.left -= 1;
        if self.left > 0 {
            return false;
        }
        self.left = every;
        true
    }
}

/// The counts so far.
pub fn so_far_of<S: Store + Send + Drop>(stream: &Stream<S>) -> SoFar
    requires { CanStand stream.now }
    ensures { (script : Script) (stores : List Stored) (calls : List CallLine) (h : List Entry) → IsAfter script stores calls h stream.now
        → IsSoFar (setting_over script stores) script calls h (length calls) result }
{
    let counted = stream.counted();
    SoFar {
        calls: u64::from(stream.calls()),
        summary: stream.summary(),
        evictions: counted.evictions,
        unserved: counted.unserved,
    }
}
