//! The pointer of a visit's box, while C holds it.
//!
//! It is [`crate::held_pointer`] for a visit: what crosses to C has no type parameter, so that this
//! cannot be one type for both.
ghost use Rattle.std.specs.Prelude.{◌≡◌, Option, Some, None, IsSome};
ghost use Rattle.std.specs.contracts.impls.GlobalAllocator.TheImpl.{ghosts};
ghost use Rattle.warm_c_calls.specs.contracts.open_visit.OpenVisit.{the_row as visit_row};
ghost use Rattle.warm_c_calls.specs.declared.open_visit.OpenVisit.{OpenVisit};
ghost use Rattle.warm_c.specs.Ownership.{pointer_owns};

use crate::raw_box::RawBox;
use std::alloc::Global;
use std::marker::{Model, Send};
use std::ptr::null_mut;
use warm_c_calls::OpenVisit;

/// The pointer of a box, or null. To proofs it owns the box's value, which is `visit`.
///
/// Its drop forgets what it owns: [`VisitPointer::into_box`] takes a box out. It may go to another
/// thread, since the box may: a visit whose answers wait does, with the handle at which they wait.
#[repr(C)]
#[derive(Drop)]
pub struct VisitPointer {
    at: *mut u8,
    alloc: Global,
    pub ghost visit: { Option OpenVisit },
}

impl Model for VisitPointer {
    ghost also_owns = { λ p.
        pointer_owns (ghosts.dealloc_token p.alloc) visit_row p.at p.visit };
}

unsafe impl Send for VisitPointer {}

impl VisitPointer {
    // The pointer of a box that was taken apart.
    fn of_raw_box(raw: RawBox<OpenVisit, Global>) -> VisitPointer
        ensures { result.visit ≡ Some raw.content }
    {
        let RawBox { pointer, allocator } = raw;
        VisitPointer {
            at: pointer as *mut u8,
            alloc: allocator,
        }
    }

    // The box that it owns, taken apart.
    fn into_raw_box(self) -> RawBox<OpenVisit, Global>
        requires { IsSome self.visit }
        ensures { self.visit ≡ Some result.content }
    {
        let VisitPointer { at, alloc } = self;
        RawBox {
            pointer: at as *mut OpenVisit,
            allocator: alloc,
        }
    }

    /// Returns a null pointer, which owns nothing.
    pub fn empty(alloc: Global) -> VisitPointer
        ensures { result.visit ≡ None }
    {
        VisitPointer {
            at: null_mut(),
            alloc,
        }
    }

    /// Takes a box apart and keeps its pointer.
    pub fn of(whole: Box<OpenVisit>) -> VisitPointer
        ensures { result.visit ≡ Some whole.value }
    {
        VisitPointer::of_raw_box(RawBox::from_box(whole))
    }

    /// Returns the box.
    pub fn into_box(self) -> Box<OpenVisit>
        requires { IsSome self.visit }
        ensures { self.visit ≡ Some result.value }
    {
        self.into_raw_box().into_box()
    }
}
