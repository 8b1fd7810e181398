//! The misses of a whole history at each capacity.

ghost use Rattle.std.specs.Prelude.{◌≡◌, ℕ, ◌+◌, ◌≤◌, [], IfOk};
ghost use Rattle.pager_model.specs.Legal.{entries_in};
ghost use Rattle.pager_model.specs.Settings.{Given};
ghost use Rattle.miss_curves.specs.Curves.{AreCurves, history_capacities};
ghost use Rattle.miss_curves.specs.Histories.{EachComes, IsRunOf, StandsFor};

use crate::counting::MissCurves;
use crate::stacks::{Curves, HISTORY_CAPACITIES};
use pager_model::{NoMemory, Trace};
use run_history::History;
use std::alloc::Global;

/// Follows a history from its beginning on.
fn follow_history(counting: &mut MissCurves, history: &History)
    requires start { (g : Given) × StandsFor counting.old g [] × EachComes g (entries_in history.now.items) }
    requires unused { counting.old.rows.entries ≡ 0 }
    ensures stands { (g : Given) → StandsFor counting.old g [] → EachComes g (entries_in history.now.items)
        → StandsFor counting.new g (entries_in history.now.items) }
    ensures places { counting.new.rows.places ≡ counting.old.rows.places }
{
    for place in 0..history.len() {
        let Some(numbered) = history.get(place) else {
            unreachable!()
        };
        counting.follow(&numbered.entry);
    }
}

/// The misses at each capacity from 1 to 1,024 of a run of a trace of one processor, with the tiles of the run and with base pages alone.
pub fn curves(alloc: Global, trace: &Trace, history: &History) -> Result<Curves, NoMemory>
    requires one { trace.now.processors ≡ 1 }
    requires run { (g : Given) × IsRunOf trace.now g (entries_in history.now.items) }
    ensures curves { IfOk result (λ c. (g : Given) → IsRunOf trace.now g (entries_in history.now.items)
        → AreCurves history_capacities g (entries_in history.now.items) c.tiles.items c.pages.items) }
{
    let mut counting = MissCurves::create(alloc, trace, HISTORY_CAPACITIES)?;
    follow_history(&mut counting, history);
    Ok(counting.curves())
}
