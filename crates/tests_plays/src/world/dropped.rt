//! The contents of devices after a world over them is dropped.

use super::{answers, done_in, each_alone};
use std::alloc::Global;
use std::process::Abort;
use test_kit::{DeviceNote, noting, page};
use warm_pool::Slot;
use warm_stamps::ByteList;
use warm_world::{Event, Setup, World};

// Whether the device was dropped once, after this many writes, and page 1 had this byte throughout,
// and page 0 zeros.
fn is_kept(note: &DeviceNote, writes: u64, byte: u8) -> bool {
    note.has(0, &[0; 16]) && note.has(1, &[byte; 16]) && note.counts() == (writes, 1)
}

// Page 1 of replica 2 is filled and written back, and then filled again in its frame only.
fn written_once(rt: &impl Abort, alloc: Global) -> Vec<Event> {
    let mut events = Vec::new(alloc);
    for (generation, byte) in [(1, 0xAA), (2, 0xBB)] {
        let (index, bytes) = (0, vec![in alloc; byte; 16].expect(rt, "memory for bytes"));
        let slot = Slot { index, generation };
        let put = Event::Put(2, slot, 0, ByteList::of(bytes));
        let fills = [
            Event::Restart(2),
            Event::Pin(2, page(1)),
            put,
            Event::Unpin(2, slot),
        ];
        for event in fills {
            events.push(event).expect(rt, "memory for an event");
        }
    }
    events
}

// Each device has what was last written to it, and is dropped once.
#[test]
fn a_dropped_world_writes_to_no_device(rt: HostRuntime) {
    let alloc = rt.alloc();
    let setup = Setup::new(2, 1, 1, 1, 16).expect(&rt, "it is within its limits");
    let (device, first) = noting(alloc, 2, 16).expect(&rt, "memory for a device");
    let (other, second) = noting(alloc, 2, 16).expect(&rt, "memory for a device");
    let devices = each_alone(&rt, alloc, device, other);
    let mut world = World::new(alloc, setup, devices)
        .ok()
        .expect(&rt, "a world");
    let answers = answers(&rt, &mut world, written_once(&rt, alloc));
    assert!(rt; done_in(answers.as_slice()) == 6);
    drop(world);
    assert!(rt; is_kept(&first, 0, 0) && is_kept(&second, 1, 0xAA));
}
