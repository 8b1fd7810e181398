//! What C keeps of a pool.

ghost use Rattle.std.specs.Prelude.{◌≡◌, Some, None, IfSome, IfNone, IsSome, is_some, option_map};

use crate::kept::Kept;
use frame_table::FrameTable;
use std::alloc::Global;
use std::mem;

/// Whether there is a table of frames, and where.
#[repr(C)]
pub struct Superpager {
    pub(crate) kept: Kept,
    is_open: bool,
    ghost same: { is_open ≡ is_some kept.state },
}

impl Superpager {
    /// Whether there is a table.
    pub(crate) fn is_open(&mut self) -> bool
        ensures open { result ≡ is_some self.old.kept.state }
        ensures same { self.new.kept.state ≡ self.old.kept.state }
    {
        self.is_open
    }

    /// Takes the table out, where there is one. There is none then.
    pub(crate) fn take_out(&mut self, alloc: Global) -> Option<Box<FrameTable>>
        ensures out { IfSome result (λ table. self.old.kept.state ≡ Some table.value) }
        ensures none { IfNone result (self.old.kept.state ≡ None) }
        ensures closed { self.new.kept.state ≡ None }
    {
        if !self.is_open {
            return None;
        }
        let kept = mem::replace(&mut self.kept, Kept::none());
        self.is_open = false;
        Some(kept.release(alloc))
    }

    /// Puts a table in, where there is none.
    pub(crate) fn put_in(&mut self, table: Box<FrameTable>)
        requires { self.old.kept.state ≡ None }
        ensures { self.new.kept.state ≡ Some table.value }
    {
        mem::replace(&mut self.kept, Kept::hold(table)).end();
        self.is_open = true;
    }
}

/// What C keeps may go from thread to thread.
fn changes_threads() {
    fn may_change<T: Send>() {}
    may_change::<Superpager>();
}
