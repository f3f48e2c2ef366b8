//! How faults are displayed: those of replica numbers, of buffers, of frames and of devices.
use test_kit::{displays, page, seen};
use warm_devices::{DeviceFault, OpenFault};
use warm_frames::FrameFault;
use warm_refbuffer::{BufferFault, Full};
use warm_stamps::BadReplica;

const FRAME: [(FrameFault, &str); 11] = [
    (FrameFault::Memory, "Memory"),
    (FrameFault::Truncated, "Truncated"),
    (FrameFault::BadMagic, "BadMagic"),
    (FrameFault::BadKind, "BadKind"),
    (FrameFault::BadSender, "BadSender"),
    (FrameFault::BadLength, "BadLength"),
    (FrameFault::BadCount, "BadCount"),
    (FrameFault::BadTag, "BadTag"),
    (FrameFault::BadStamp, "BadStamp"),
    (FrameFault::BadOrder, "BadOrder"),
    (FrameFault::Failed, "Failed"),
];

const OF_DEVICES: [(DeviceFault, &str); 3] = [
    (DeviceFault::Read, "Read"),
    (DeviceFault::Write, "Write"),
    (DeviceFault::Flush, "Flush"),
];

#[test]
fn frame_faults_are_shown_by_their_names(rt: HostRuntime) {
    for (fault, want) in FRAME {
        assert!(rt; displays(rt.alloc(), &fault, want));
    }
}

#[test]
fn faults_of_devices_are_shown_by_their_names(rt: HostRuntime) {
    for (fault, want) in OF_DEVICES {
        assert!(rt; displays(rt.alloc(), &fault, want));
    }
    assert!(rt; displays(rt.alloc(), &OpenFault::Memory, "Memory"));
    assert!(rt; displays(rt.alloc(), &OpenFault::Open, "Open"));
}

#[test]
fn small_faults_are_shown_by_their_names(rt: HostRuntime) {
    let alloc = rt.alloc();
    assert!(rt; displays(alloc, &BadReplica, "BadReplica"));
    assert!(rt; displays(alloc, &BufferFault::Memory, "Memory"));
    assert!(rt; displays(alloc, &BufferFault::BadCapacity, "BadCapacity"));
    assert!(rt; displays(alloc, &Full(seen(page(1), 5, 1)), "Full"));
}
