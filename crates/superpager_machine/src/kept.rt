//! A pager on the heap, as a pointer that C may keep.

ghost use Rattle.std.specs.Prelude.{◌≡◌, Option, Some, None, IsSome};
ghost use Rattle.stream_core.specs.Streaming.{Streaming};
ghost use Rattle.superpager_machine.specs.Ownership.{kept_owns};

use guarded_pager::GuardedPager;
use loose_box::Loose;
use std::alloc::Global;
use std::marker::Model;
use std::ptr;

/// What C sees at the pointer. Nothing of it is read.
#[repr(C)]
pub struct Opaque {
    nothing: u8,
}

/// A pager on the heap, or none, as a pointer. It can't be dropped: so a pager that it has is never lost.
#[repr(C)]
pub struct Kept {
    at: *mut Opaque,
    pub ghost state: { Option Streaming },
}

impl Model for Kept {
    ghost also_owns = { λ k. kept_owns k.at k.state };
}

unsafe impl Send for Kept {}

impl Kept {
    /// None.
    pub fn none() -> Kept
        ensures { result.state ≡ None }
    {
        Kept {
            at: ptr::null_mut(),
        }
    }

    /// This pager.
    pub fn hold(pager: Box<GuardedPager>) -> Kept
        ensures { result.state ≡ Some pager.value }
    {
        Kept::over(Loose::of(pager))
    }

    /// The pager.
    pub fn release(self, alloc: Global) -> Box<GuardedPager>
        requires { IsSome self.state }
        ensures { Some result.value ≡ self.state }
    {
        self.unkept(alloc).into_box()
    }

    /// Lets none go.
    pub fn end(self)
        requires { self.state ≡ None }
    {
        let Kept { at: _ } = self;
    }

    /// Forgets the type of what lies at the pointer.
    fn over(loose: Loose<GuardedPager, Global>) -> Kept
        ensures { result.state ≡ Some loose.value }
    {
        let Loose { at, alloc: _ } = loose;
        Kept {
            at: at as *mut Opaque,
        }
    }

    /// The type of what lies at the pointer again.
    fn unkept(self, alloc: Global) -> Loose<GuardedPager, Global>
        requires { IsSome self.state }
        ensures { Some result.value ≡ self.state }
    {
        let Kept { at } = self;
        Loose {
            at: at as *mut GuardedPager,
            alloc,
        }
    }
}
