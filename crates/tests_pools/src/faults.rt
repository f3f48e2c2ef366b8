//! How the faults of pools are displayed.
use test_kit::displays;
use warm_pool::{NewPoolFault, PoolFault};

const OF_POOLS: [(PoolFault, &str); 10] = [
    (PoolFault::SizeDiffers, "SizeDiffers"),
    (PoolFault::NoDevice, "NoDevice"),
    (PoolFault::NoPage, "NoPage"),
    (PoolFault::AllFixed, "AllFixed"),
    (PoolFault::ReadFault, "ReadFault"),
    (PoolFault::WriteBack, "WriteBack"),
    (PoolFault::FixesFull, "FixesFull"),
    (PoolFault::OutOfPage, "OutOfPage"),
    (PoolFault::Fixed, "Fixed"),
    (PoolFault::Fault, "Fault"),
];

const OF_NEW_POOLS: [(NewPoolFault, &str); 3] = [
    (NewPoolFault::Memory, "Memory"),
    (NewPoolFault::BadFrames, "BadFrames"),
    (NewPoolFault::SizeDiffers, "SizeDiffers"),
];

#[test]
fn faults_of_pools_are_shown_by_their_names(rt: HostRuntime) {
    for (fault, want) in OF_POOLS {
        assert!(rt; displays(rt.alloc(), &fault, want));
    }
    for (fault, want) in OF_NEW_POOLS {
        assert!(rt; displays(rt.alloc(), &fault, want));
    }
}
