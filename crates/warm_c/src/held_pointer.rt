//! The pointer of a box, while C holds it.
ghost use Rattle.std.specs.Prelude.{◌≡◌, Option, Some, None, IsSome};
ghost use Rattle.std.specs.contracts.impls.GlobalAllocator.TheImpl.{ghosts};
ghost use Rattle.warm_c_calls.specs.contracts.open_node.OpenNode.{the_row as node_row};
ghost use Rattle.warm_c_calls.specs.declared.open_node.OpenNode.{OpenNode};
ghost use Rattle.warm_c.specs.Ownership.{pointer_owns};

use crate::raw_box::RawBox;
use std::alloc::Global;
use std::marker::{Model, Send};
use std::ptr::null_mut;
use warm_c_calls::OpenNode;

/// The pointer of a box, or null. To proofs it owns the box's value, which is `node`.
///
/// Its drop forgets what it owns: [`HeldPointer::into_box`] takes a box out. It may go to another
/// thread, since the box may.
#[repr(C)]
#[derive(Drop)]
pub struct HeldPointer {
    at: *mut u8,
    alloc: Global,
    pub ghost node: { Option OpenNode },
}

impl Model for HeldPointer {
    ghost also_owns = { λ p.
        pointer_owns (ghosts.dealloc_token p.alloc) node_row p.at p.node };
}

unsafe impl Send for HeldPointer {}

impl HeldPointer {
    // The pointer of a box that was taken apart.
    fn of_raw_box(raw: RawBox<OpenNode, Global>) -> HeldPointer
        ensures { result.node ≡ Some raw.content }
    {
        let RawBox { pointer, allocator } = raw;
        HeldPointer {
            at: pointer as *mut u8,
            alloc: allocator,
        }
    }

    // The box that it owns, taken apart.
    fn into_raw_box(self) -> RawBox<OpenNode, Global>
        requires { IsSome self.node }
        ensures { self.node ≡ Some result.content }
    {
        let HeldPointer { at, alloc } = self;
        RawBox {
            pointer: at as *mut OpenNode,
            allocator: alloc,
        }
    }

    /// Returns a null pointer, which owns nothing.
    pub fn empty(alloc: Global) -> HeldPointer
        ensures { result.node ≡ None }
    {
        HeldPointer {
            at: null_mut(),
            alloc,
        }
    }

    /// Takes a box apart and keeps its pointer.
    pub fn of(whole: Box<OpenNode>) -> HeldPointer
        ensures { result.node ≡ Some whole.value }
    {
        HeldPointer::of_raw_box(RawBox::from_box(whole))
    }

    /// Returns the box.
    pub fn into_box(self) -> Box<OpenNode>
        requires { IsSome self.node }
        ensures { self.node ≡ Some result.value }
    {
        self.into_raw_box().into_box()
    }
}
