//! Buffers of references: their contents, and which capacities are refused.

use std::alloc::Global;
use test_kit::{page, seen};
use warm_refbuffer::{BufferFault, Full, RefBuffer};

#[test]
fn a_buffer_takes_as_many_as_it_holds(rt: HostRuntime) {
    let mut buffer = RefBuffer::new(rt.alloc(), 64).expect(&rt, "memory for 64 references");
    assert!(rt; buffer.is_empty());
    for time in 1..=64u64 {
        assert!(rt; buffer.touch(seen(page(1), time, 1)) == Ok(()));
    }
    let more = seen(page(1), 65, 1);
    assert!(rt; buffer.is_full());
    assert!(rt; buffer.touch(more) == Err(Full(more)));
    assert!(rt; buffer.len() == 64 && buffer.cap() == 64);
    assert!(rt; buffer.refs().first().copied() == Some(seen(page(1), 1, 1)));
    assert!(rt; buffer.refs().last().copied() == Some(seen(page(1), 64, 1)));
    buffer.clear();
    assert!(rt; buffer.len() == 0 && buffer.cap() == 64);
}

// The capacity of a new buffer that is requested with this one.
fn capacity(alloc: Global, capacity: usize) -> Result<usize, BufferFault> {
    let buffer = RefBuffer::new(alloc, capacity)?;
    Ok(buffer.cap())
}

#[test]
fn a_buffer_holds_from_1_to_1024(rt: HostRuntime) {
    assert!(rt; capacity(rt.alloc(), 0) == Err(BufferFault::BadCapacity));
    assert!(rt; capacity(rt.alloc(), 1) == Ok(1));
    assert!(rt; capacity(rt.alloc(), 1024) == Ok(1024));
    assert!(rt; capacity(rt.alloc(), 1025) == Err(BufferFault::BadCapacity));
}
