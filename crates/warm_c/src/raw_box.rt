//! A box that was taken apart.
ghost use Rattle.std.specs.Prelude.{◌≡◌};
ghost use Rattle.std_alloc.specs.Box.Ownership.{box_owns};

use std::alloc::Allocator;
use std::marker::Model;

/// The parts of a box: its pointer, and the allocator that frees its block. To proofs it still owns
/// the value, its `content`.
///
/// It has no drop, so that the value is not lost: the box is made again, or a
/// [`crate::held_pointer::HeldPointer`] takes the pointer.
pub struct RawBox<T, A: Allocator> {
    pub(crate) pointer: *mut T,
    pub(crate) allocator: A,
    pub ghost content: { T },
}

impl<T, A: Allocator> Model for RawBox<T, A> {
    ghost also_owns = { λ raw.
        box_owns (A.dealloc_token raw.allocator) T.row raw.pointer raw.content };
}

impl<T: Drop, A: Allocator> RawBox<T, A> {
    /// Takes a box apart.
    pub fn from_box(whole: Box<T, A>) -> RawBox<T, A>
        ensures { result.content ≡ whole.value }
    {
        let (pointer, allocator) = Box::into_raw_with_allocator(whole);
        RawBox { pointer, allocator }
    }

    /// Makes the box again.
    pub fn into_box(self) -> Box<T, A>
        ensures { result.value ≡ self.content }
    {
        let RawBox { pointer, allocator } = self;
        unsafe { Box::from_raw(allocator, pointer) }
    }
}
