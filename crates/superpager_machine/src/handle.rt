//! What C keeps of a pager.

ghost use Rattle.std.specs.Prelude.{◌≡◌, Some, None, IfSome, IfNone, IsSome, is_some, option_map};

use crate::kept::Kept;
use guarded_pager::GuardedPager;
use std::alloc::Global;
use std::mem;

/// Whether there is a pager, and where.
#[repr(C)]
pub struct Machine {
    pub(crate) kept: Kept,
    is_open: bool,
    ghost same: { is_open ≡ is_some kept.state },
}

impl Machine {
    /// Whether there is a pager.
    pub(crate) fn is_open(&mut self) -> bool
        ensures open { result ≡ is_some self.old.kept.state }
        ensures same { self.new.kept.state ≡ self.old.kept.state }
    {
        self.is_open
    }

    /// Takes the pager out, where there is one. There is none then.
    pub(crate) fn take_out(&mut self, alloc: Global) -> Option<Box<GuardedPager>>
        ensures out { IfSome result (λ pager. self.old.kept.state ≡ Some pager.value) }
        ensures none { IfNone result (self.old.kept.state ≡ None) }
        ensures closed { self.new.kept.state ≡ None }
    {
        if !self.is_open {
            return None;
        }
        let kept = mem::replace(&mut self.kept, Kept::none());
        self.is_open = false;
        Some(kept.release(alloc))
    }

    /// Puts a pager in, where there is none.
    pub(crate) fn put_in(&mut self, pager: Box<GuardedPager>)
        requires { self.old.kept.state ≡ None }
        ensures { self.new.kept.state ≡ Some pager.value }
    {
        mem::replace(&mut self.kept, Kept::hold(pager)).end();
        self.is_open = true;
    }
}

/// What C keeps may go from thread to thread.
fn changes_threads() {
    fn may_change<T: Send>() {}
    may_change::<Machine>();
}
