//! The limits of a setup, and the lists of devices that fit one.

use super::each_alone;
use test_kit::memory;
use warm_devices::MemDevice;
use warm_world::{BadSetup, BadWorld, Setup, World};

// Replicas, workers of each, references in a buffer, frames, and bytes of a page.
type Numbers = (u16, u16, u16, u32, u32);

const TAKEN: [Numbers; 3] = [
    (1, 1, 1, 1, 1),
    (3, 2, 64, 4, 16),
    (64, 16, 1024, 65_536, 65_536),
];

const REFUSED: [Numbers; 11] = [
    (65, 2, 64, 4, 16),
    (1, 0, 64, 4, 16),
    (0, 2, 64, 4, 16),
    (3, 17, 64, 4, 16),
    (3, 2, 0, 4, 16),
    (3, 2, 1025, 4, 16),
    (3, 2, 64, 0, 16),
    (3, 2, 64, 65_537, 16),
    (3, 2, 64, 4, 0),
    (3, 2, 64, 4, 65_537),
    (65, 17, 1025, 65_537, 65_537),
];

#[test]
fn a_setup_is_within_its_limits(rt: HostRuntime) {
    for (replicas, workers, buffer, frames, page_size) in TAKEN {
        assert!(rt; Setup::new(replicas, workers, buffer, frames, page_size).is_ok());
    }
    for (replicas, workers, buffer, frames, page_size) in REFUSED {
        let refused = Setup::new(replicas, workers, buffer, frames, page_size).err();
        assert!(rt; refused == Some(BadSetup));
    }
}

// The number of replicas, the size of a page of the second device, and why no world is made over
// two lists under a setup of that many replicas and pages of 16 bytes.
const UNFIT: [(u16, usize, BadWorld); 3] = [
    (3, 16, BadWorld::DevicesDiffer),
    (3, 8, BadWorld::DevicesDiffer),
    (2, 8, BadWorld::SizeDiffers),
];

#[test]
fn a_world_has_a_fitting_list_for_each_replica(rt: HostRuntime) {
    let alloc = rt.alloc();
    for (replicas, page_size, wanted) in UNFIT {
        let setup = Setup::new(replicas, 2, 64, 4, 16).expect(&rt, "it is within its limits");
        let first = memory(alloc, 256).expect(&rt, "memory for a device");
        let second = MemDevice::new(alloc, 256, page_size).expect(&rt, "memory for a device");
        let made = World::new(alloc, setup, each_alone(&rt, alloc, first, second));
        assert!(rt; made.err() == Some(wanted));
    }
}
