//! A handle of visits, as C has it.
ghost use Rattle.std.specs.Prelude.{◌≡◌, Some, None, IfNone, IfSome, is_some};

use crate::visit_pointer::VisitPointer;
use std::alloc::Global;
use std::mem::replace;
use warm_c_calls::OpenVisit;

/// A handle. All zeros is a closed one; an open one owns a visit.
#[repr(C)]
#[derive(Drop)]
pub struct VisitHandle {
    is_open: bool,
    /// The pointer of the visit that it holds.
    pub held: VisitPointer,
    ghost agrees: { is_open ≡ is_some held.visit },
}

impl VisitHandle {
    /// Returns a closed handle.
    pub fn closed(alloc: Global) -> VisitHandle
        ensures { result.held.visit ≡ None }
    {
        VisitHandle {
            is_open: false,
            held: VisitPointer::empty(alloc),
        }
    }

    /// Returns an open handle, which holds this visit.
    pub fn of(visit: Box<OpenVisit>) -> VisitHandle
        ensures { result.held.visit ≡ Some visit.value }
    {
        VisitHandle {
            is_open: true,
            held: VisitPointer::of(visit),
        }
    }

    /// Takes the visit out of an open handle; `None` of a closed one. Afterwards the handle is
    /// closed.
    pub fn take(&mut self, alloc: Global) -> Option<Box<OpenVisit>>
        ensures closed { self.new.held.visit ≡ None }
        ensures taken { IfSome result (λ visit. self.old.held.visit ≡ Some visit.value) }
        ensures none { IfNone result (self.old.held.visit ≡ None) }
    {
        let VisitHandle { is_open, held } = replace(self, VisitHandle::closed(alloc));
        if is_open {
            return Some(held.into_box());
        }
        None
    }
}
