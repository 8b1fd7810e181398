//! The pager: its start, a call, its counts, and its end.

ghost use Rattle.std.specs.Prelude.{◌≡◌, ℕ, ◌<◌, ◌≤◌, ◌%◌, [], IfErr, IfOk, List, length, map};
ghost use Rattle.pager_model.specs.Bounds.{most_frames, most_processors, most_spaces};
ghost use Rattle.pager_model.specs.declared.call.Line.{Line as CallLine};
ghost use Rattle.pager_model.specs.declared.entry.Entry.{Entry};
ghost use Rattle.pager_model.specs.Counts.{counts};
ghost use Rattle.pager_model.specs.Scripts.{Script};
ghost use Rattle.pager_model.specs.SpaceStates.{served_page};
ghost use Rattle.pager_model.specs.Stored.{Stored};
ghost use Rattle.pager_model.specs.Stores.{setting_over};
ghost use Rattle.pager_model.specs.TraceText.{IsCall, IsLine};
ghost use Rattle.stream_core.specs.Streaming.{IsRunTo, most_calls_made};
ghost use Rattle.live_pager.specs.Live.{IsLive, IsTold, frame_told, script_of};

use crate::told::Told;
use pager_model::{Call, Line, Reply, Sizes, Summary, Trace, page_of};
use std::alloc::Global;
use std::marker::Model;
use store_core::Store;
use stream_core::Stream;

/// A pager that answers each call before the next. It owns the spaces with their stores, and the pool.
#[derive(Drop)]
pub struct LivePager<S: Store + Send + Drop> {
    stream: Stream<S>,
    // the counts so far
    counts: Summary,
}

impl<S: Store + Send + Drop> Model for LivePager<S> {
    ghost use Rattle.stream_core.specs.Streaming.{Streaming};
    ghost use Rattle.live_pager.specs.Live.{IsCounted};

    ghost Value = { Streaming };

    ghost view = { λ p. p.stream };

    ghost invariant = { λ p. IsCounted p.stream p.counts };
}

impl<S: Store + Send + Drop> LivePager<S> {
    /// A pager of so many frames, processors and spaces and of these page sizes, whose spaces use the stores of their numbers; there are at least as
    /// many stores as spaces. All the memory that it takes, but for that of the stores' writes, is taken here, and for want of it the stores come
    /// back.
    pub fn create(
        alloc: Global,
        frames: u32,
        processors: u32,
        spaces: u32,
        sizes: Sizes,
        stores: Vec<S>,
    ) -> Result<LivePager<S>, Vec<S>>
        requires frames { (512 ≤ frames) × (frames ≤ most_frames) }
        requires whole { frames % 512 ≡ 0 }
        requires processors { (1 ≤ processors) × (processors ≤ most_processors) }
        requires spaces { (1 ≤ spaces) × (spaces ≤ most_spaces) }
        requires enough { spaces ≤ length stores.items }
        ensures starts { IfOk result (λ s. IsLive (script_of frames processors spaces sizes) (map S.seen stores.items) [] [] s) }
        ensures back { IfErr result (λ back. map S.seen back.items ≡ map S.seen stores.items) }
    {
        let opening = Trace::of(3, frames, processors, spaces, sizes, None, Vec::new(alloc));
        match Stream::create(alloc, &opening, stores, false) {
            Ok(stream) => {
                let counts = stream.summary();
                Ok(LivePager { stream, counts })
            }
            Err(stores) => Err(stores),
        }
    }

    /// Makes a call to its end, and tells what it was answered and what it did.
    pub fn call(&mut self, line: Line) -> Told
        requires line { IsLine 3 self.old.processors (length self.old.spaces) line }
        requires few { self.old.calls < most_calls_made }
        ensures { (script : Script) (stores : List Stored) (calls : List CallLine) (h : List Entry) → IsLive script stores calls h self.old
            → IsTold script stores calls line h result self.new }
    {
        let before = self.counts;
        let evicted = self.stream.counted().evictions;
        self.stream.make(line);
        let Some(answered) = self.stream.last() else {
            unreachable!()
        };
        self.counts = self.stream.summary();
        Told {
            answered,
            frame: frame_told(&self.stream, &line.call, answered.reply),
            promotions: self.counts.promotions - before.promotions,
            demotions: self.counts.demotions - before.demotions,
            preemptions: self.counts.preemptions - before.preemptions,
            evictions: self.stream.counted().evictions - evicted,
        }
    }

    /// How many processors make calls.
    pub fn processors(&self) -> u32
        ensures { result ≡ self.now.processors }
    {
        self.stream.processors()
    }

    /// How many spaces there are.
    pub fn spaces(&self) -> u32
        ensures spaces { result ≡ length self.now.spaces }
        ensures few { result ≤ most_spaces }
    {
        self.stream.spaces() as u32
    }

    /// How many calls were made.
    pub fn calls(&self) -> u32
        ensures { result ≡ self.now.calls }
    {
        self.stream.calls()
    }

    /// The counts so far.
    pub fn counts(&self) -> Summary
        ensures { (script : Script) (stores : List Stored) (calls : List CallLine) (h : List Entry) → IsLive script stores calls h self.now
            → result ≡ counts (setting_over script stores) h }
    {
        self.counts
    }

    /// Ends it: the stores, in their order.
    pub fn close(self) -> Vec<S>
        ensures { (script : Script) (stores : List Stored) (calls : List CallLine) (h : List Entry) → IsLive script stores calls h self
            → IsRunTo script stores calls h (map S.seen result.items) }
    {
        self.stream.stop()
    }
}

/// The frame of the page, after a load or a store that was served.
fn frame_told<S: Store + Send + Drop>(stream: &Stream<S>, call: &Call, reply: Reply) -> Option<u32>
    requires { IsCall (length stream.now.spaces) call.now × (length stream.now.spaces ≤ most_spaces) }
    ensures { result ≡ frame_told stream.now.pool call.now reply }
{
    let page = served_page(call, reply)?;
    stream.frame_of(call.space(), page)
}

/// The page of a load or a store that was served.
fn served_page(call: &Call, reply: Reply) -> Option<u32>
    requires { (spaces : ℕ) × IsCall spaces call.now }
    ensures { result ≡ served_page call.now reply }
{
    match (*call, reply) {
        (Call::Load { address, .. }, Reply::Value(_)) => Some(page_of(address)),
        (Call::Store { address, .. }, Reply::Done) => Some(page_of(address)),
        _ => None,
    }
}
