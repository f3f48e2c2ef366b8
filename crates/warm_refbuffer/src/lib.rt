//! A worker's buffer of references.
//!
//! A worker appends each reference that it makes to a buffer of its own, and the buffer is absorbed
//! into the replica's history as one batch. A buffer allocates its whole capacity when it is made,
//! so that appending a reference is allocation-free.
#![tactic(auto)]

ghost use Rattle.std.specs.Prelude.{◌≡◌, ◌≤◌, ◌<◌, [], length, IsOk, IfOk, IsTrue, ◌↔◌, codes};
ghost use Rattle.warm_refbuffer.specs.Buffered.{IsCapacity, cleared, with_last, code_of, name_of};

use std::alloc::{AllocError, Global};
use std::marker::Model;
use thiserror::Error;
use warm_stamps::Reference;

/// The maximum capacity of a buffer, in references.
pub const MAX_CAPACITY: usize = 1024;

/// The references that a worker has made since its buffer was last cleared, oldest first, and the
/// buffer's capacity (1 to [`MAX_CAPACITY`]). Contracts see `Buffered`: the list `refs` and the
/// number `capacity`.
#[derive(Debug, Drop)]
pub struct RefBuffer {
    refs: Vec<Reference>,
    capacity: usize,
}

impl Model for RefBuffer {
    ghost use Rattle.std.specs.Prelude.{length, vec_capacity};
    ghost use Rattle.warm_refbuffer.specs.Buffered.{Buffered, IsBuffer};

    ghost Value = { Buffered };

    ghost view = { λ b. record { refs = b.refs.items; capacity = b.capacity } };

    ghost invariant = { λ b. IsBuffer (length b.refs.items) b.capacity (vec_capacity b.refs) };
}

/// Why no buffer was made.
#[derive(Clone, Copy, Debug, PartialEq, Eq, Error)]
pub enum BufferFault {
    /// 1: the allocation of the buffer failed.
    #[error("Memory")]
    Memory,
    /// 2: the capacity is outside 1 to [`MAX_CAPACITY`].
    #[error("BadCapacity")]
    BadCapacity,
}

// An allocation failure is `Memory`.
impl From<AllocError> for BufferFault {
    ghost use Rattle.std.specs.Prelude.{◌≡◌};
    ghost use Rattle.warm_refbuffer.specs.declared.BufferFault.TheVariants.{Memory};

    ghost from_gives = { λ _ fault. fault ≡ Memory };

    fn from(_: AllocError) -> BufferFault {
        BufferFault::Memory
    }
}

impl BufferFault {
    /// The number of the refusal: 1 or 2.
    pub fn code(self) -> u8
        ensures { result ≡ code_of self }
    {
        match self {
            BufferFault::Memory => 1,
            BufferFault::BadCapacity => 2,
        }
    }

    /// Its name, as the variant is written.
    pub fn name(self) -> &'static str
        ensures { result.now ≡ name_of self }
    {
        match self {
            BufferFault::Memory => "Memory",
            BufferFault::BadCapacity => "BadCapacity",
        }
    }
}

/// 3: the buffer is full. The rejected reference is returned in it.
#[derive(Clone, Copy, Debug, PartialEq, Eq, Error)]
#[error("Full")]
pub struct Full(pub Reference);

impl Full {
    /// The number of the refusal: 3.
    pub fn code(self) -> u8
        ensures { result ≡ 3 }
    {
        3
    }

    /// Its name: `Full`.
    pub fn name(self) -> &'static str
        ensures { result.now ≡ codes "Full" }
    {
        "Full"
    }
}

impl RefBuffer {
    /// An empty buffer for `capacity` references, which are allocated here.
    ///
    /// Refused as `BadCapacity` if `capacity` is outside 1 to [`MAX_CAPACITY`], and otherwise as
    /// `Memory` if the allocation fails.
    pub fn new(alloc: Global, capacity: usize) -> Result<RefBuffer, BufferFault>
        ensures value { IfOk result (λ b. b ≡ record { refs = []; capacity = capacity }) }
        ensures capacity { IsOk result → IsCapacity capacity }
        ensures bad { (result ≡ Err BufferFault.BadCapacity) ↔ (¬ IsCapacity capacity) }
    {
        if capacity < 1 || capacity > MAX_CAPACITY {
            return Err(BufferFault::BadCapacity);
        }
        let refs = Vec::with_capacity(alloc, capacity)?;
        Ok(RefBuffer { refs, capacity })
    }

    /// The buffered references, oldest first.
    pub fn refs(&self) -> &[Reference]
        ensures { result.now ≡ self.now.refs }
    {
        self.refs.as_slice()
    }

    /// The number of buffered references.
    pub fn len(&self) -> usize
        ensures value { result ≡ length self.now.refs }
        ensures bound { result ≤ self.now.capacity }
    {
        self.refs.len()
    }

    /// Whether the buffer is empty.
    pub fn is_empty(&self) -> bool
        ensures { IsTrue result ↔ (self.now.refs ≡ []) }
    {
        self.refs.is_empty()
    }

    /// The maximum number of references that the buffer holds.
    pub fn cap(&self) -> usize
        ensures value { result ≡ self.now.capacity }
        ensures capacity { IsCapacity result }
    {
        self.capacity
    }

    /// Whether the buffer is full: the next reference would be refused.
    pub fn is_full(&self) -> bool
        ensures { IsTrue result ↔ (self.now.capacity ≤ length self.now.refs) }
    {
        self.capacity <= self.refs.len()
    }

    /// Appends a reference. It is allocation-free. A full buffer gives the reference back and is
    /// unchanged.
    pub fn touch(&mut self, reference: Reference) -> Result<(), Full>
        ensures taken { length self.old.refs < self.old.capacity
            → IsOk result × (self.new ≡ with_last self.old reference) }
        ensures full { self.old.capacity ≤ length self.old.refs
            → (result ≡ Err (record { 0 = reference })) × (self.new ≡ self.old) }
    {
        if self.refs.len() < self.capacity {
            self.refs.push_reserved(reference);
            return Ok(());
        }
        Err(Full(reference))
    }

    /// Empties the buffer, and keeps its capacity.
    pub fn clear(&mut self)
        ensures { self.new ≡ record self.old { refs = [] } }
    {
        self.refs.clear();
    }

    /// Empties the buffer, keeps its capacity, and adds this reference as the first. Every capacity
    /// is at least 1, so nothing is refused. It is allocation-free.
    pub fn start_with(&mut self, reference: Reference)
        ensures { self.new ≡ with_last (cleared self.old) reference }
    {
        self.clear();
        self.refs.push_reserved(reference);
    }
}
