//! A table of frames on the heap, as a pointer that C may keep.

ghost use Rattle.std.specs.Prelude.{◌≡◌, Option, Some, None, IsSome};
ghost use Rattle.pager_model.specs.FrameStates.{FrameState};
ghost use Rattle.superpager_c.specs.Ownership.{kept_owns};

use frame_table::FrameTable;
use loose_box::Loose;
use std::alloc::Global;
use std::marker::Model;
use std::ptr;

/// What C sees at the pointer. Nothing of it is read.
#[repr(C)]
pub struct Opaque {
    nothing: u8,
}

/// A table on the heap, or none, as a pointer. It can't be dropped: so a table that it has is never lost.
#[repr(C)]
pub struct Kept {
    at: *mut Opaque,
    pub ghost state: { Option FrameState },
}

impl Model for Kept {
    ghost also_owns = { λ k. kept_owns k.at k.state };
}

unsafe impl Send for Kept {}

impl Kept {
    /// None.
    pub fn none() -> Kept
        ensures { result.state ≡ None }
    {
        Kept {
            at: ptr::null_mut(),
        }
    }

    /// This table.
    pub fn hold(table: Box<FrameTable>) -> Kept
        ensures { result.state ≡ Some table.value }
    {
        Kept::over(Loose::of(table))
    }

    /// The table.
    pub fn release(self, alloc: Global) -> Box<FrameTable>
        requires { IsSome self.state }
        ensures { Some result.value ≡ self.state }
    {
        self.unkept(alloc).into_box()
    }

    /// Lets none go.
    pub fn end(self)
        requires { self.state ≡ None }
    {
        let Kept { at: _ } = self;
    }

    /// Forgets the type of what lies at the pointer.
    fn over(loose: Loose<FrameTable, Global>) -> Kept
        ensures { result.state ≡ Some loose.value }
    {
        let Loose { at, alloc: _ } = loose;
        Kept {
            at: at as *mut Opaque,
        }
    }

    /// The type of what lies at the pointer again.
    fn unkept(self, alloc: Global) -> Loose<FrameTable, Global>
        requires { IsSome self.state }
        ensures { Some result.value ≡ self.state }
    {
        let Kept { at } = self;
        Loose {
            at: at as *mut FrameTable,
            alloc,
        }
    }
}
