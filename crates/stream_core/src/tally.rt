//! What a stream counts of its entries, as a log of them.

ghost use Rattle.std.specs.Prelude.{◌≡◌, ℕ, [], List, IfOk, IfSome, is_some};
ghost use Rattle.miss_curves.specs.Curves.{AnswersAlone, AreCurves, AreLong, stream_capacities};
ghost use Rattle.miss_curves.specs.Histories.{Begins};
ghost use Rattle.pager_model.specs.declared.entry.Entry.{Entry as Made};
ghost use Rattle.pager_model.specs.Settings.{Given};
ghost use Rattle.stream_core.specs.Tallies.{IsTallied, has_curves, remembered};

use flight_core::{Counted, Log};
use miss_curves::{Curves, MissCurves, STREAM_CAPACITIES};
use pager_model::{Answered, Entry, NoMemory, Trace, What};
use std::alloc::Global;
use std::marker::Model;

/// The counts of a history that nobody keeps, what its last answer said, and where they are asked for its miss curves.
#[derive(Drop)]
pub struct Tally {
    counted: Counted,
    last: Option<Answered>,
    curves: Option<MissCurves>,
}

impl Model for Tally {
    ghost use Rattle.stream_core.specs.Tallies.{FitsStream, Tallied};

    ghost Value = { Tallied };

    ghost view = { λ t. record { counted = t.counted; last = t.last; curves = t.curves } };

    ghost invariant = { λ t. FitsStream (record { counted = t.counted; last = t.last; curves = t.curves }) };
}

impl Tally {
    /// Of no entry of a trace, with its curves or without.
    pub fn create(alloc: Global, trace: &Trace, curves: bool) -> Result<Tally, NoMemory>
        ensures starts { IfOk result (λ t. (g : Given) → Begins trace.now g → IsTallied t g []) }
        ensures asked { IfOk result (λ t. has_curves t ≡ curves) }
    {
        let curves = if curves {
            Some(MissCurves::create(alloc, trace, STREAM_CAPACITIES)?)
        } else {
            None
        };
        Ok(Tally {
            counted: Counted::new(),
            last: None,
            curves,
        })
    }

    /// The counts.
    pub fn counted(&self) -> Counted
        ensures { result ≡ self.now.counted }
    {
        self.counted
    }

    /// What the last answer said, where there was one.
    pub fn last(&self) -> Option<Answered>
        ensures { result ≡ self.now.last }
    {
        self.last
    }

    /// The curves, where they were asked for.
    pub fn into_curves(self) -> Option<Curves>
        ensures asked { is_some result ≡ has_curves self }
        ensures long { IfSome result (λ c. AreLong stream_capacities c.tiles.items c.pages.items) }
        ensures curves { (g : Given) (h : List Made) → IsTallied self g h → AnswersAlone h
            → IfSome result (λ c. AreCurves stream_capacities g h c.tiles.items c.pages.items) }
    {
        match self.curves {
            Some(curves) => Some(curves.curves()),
            None => None,
        }
    }
}

impl Log for Tally {
    ghost use Rattle.std.specs.Prelude.{◌≡◌};
    ghost use Rattle.stream_core.specs.Tallies.{IsTallied, has_curves};

    ghost stands = { λ t g h. IsTallied t g h };

    ghost takes = { λ t e. Unit {0} };

    ghost grown = { λ from t. has_curves t ≡ has_curves from };

    ghost room = { λ t. t.counted.left };

    fn add(&mut self, entry: &Entry) {
        self.counted.add(entry);
        self.last = remembered(self.last, entry);
        if let Some(curves) = &mut self.curves {
            curves.follow(entry);
        }
    }
}

/// What the last answer said, once the entry came after these.
fn remembered(last: Option<Answered>, entry: &Entry) -> Option<Answered>
    ensures { result ≡ remembered last entry.now }
{
    match entry.what {
        What::Answer { answered, .. } => Some(answered),
        _ => last,
    }
}
