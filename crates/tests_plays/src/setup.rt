//! Texts of setup files: their meanings, and which fault of a text is reported.
use crate::player::line_holds;
use std::alloc::Global;
use std::process::Abort;
use warm_setup::{DeviceSpec, PathText, SetupFault, read_setup, read_setup_file};
use warm_world::Setup;

const SIXTEEN: &str =
    "device = [{pages = 1}, {pages = 2}, {pages = 3}, {pages = 4}, {pages = 5}, {pages = 6}, {pages = 7}, {pages = 8}, {pages = 9}, {pages = 10}, {pages = 11}, {pages = 12}, {pages = 13}, {pages = 14}, {pages = 15}, {pages = 16}]";

const SEVENTEEN: &str =
    "device = [{pages = 1}, {pages = 2}, {pages = 3}, {pages = 4}, {pages = 5}, {pages = 6}, {pages = 7}, {pages = 8}, {pages = 9}, {pages = 10}, {pages = 11}, {pages = 12}, {pages = 13}, {pages = 14}, {pages = 15}, {pages = 16}, {pages = 17}]";

// The greatest numbers, and a device of each kind.
const WHOLE: &str =
    "workers = 16\nreplicas = 64\npage_size = 65536\nframes = 65536\nbuffer = 1024\n[[device]]\npages = 1048576\n[[device]]\npath = \"a/b\"\npages = 1\n";

// Whether a path is this text, or no path if none is wanted.
pub(crate) fn is_path(path: &Option<PathText>, want: Option<&str>) -> bool {
    match (path, want) {
        (Some(path), Some(want)) => path.as_str() == want,
        (None, None) => true,
        _ => false,
    }
}

fn is_device(device: &DeviceSpec, pages: u32, path: Option<&str>) -> bool {
    device.pages == pages && is_path(&device.path, path)
}

fn is_whole(setup: &Setup, devices: &[DeviceSpec]) -> bool {
    let [first, second] = devices else {
        return false;
    };
    *setup == Setup::new(64, 16, 1024, 65536, 65536).unwrap()
        && is_device(first, 1_048_576, None)
        && is_device(second, 1, Some("a/b"))
}

// Whether a text is this setup, with a device in memory of 256 pages.
fn is_setup(rt: &impl Abort, alloc: Global, text: &str, wanted: Setup) -> bool {
    let (setup, devices) = read_setup(alloc, text).expect(rt, "a setup");
    let [device] = devices.as_slice() else {
        return false;
    };
    setup == wanted && is_device(device, 256, None)
}

#[test]
fn a_text_gives_its_keys_and_the_defaults(rt: HostRuntime) {
    let defaults = Setup::new(3, 2, 64, 4, 16).unwrap();
    assert!(rt; is_setup(&rt, rt.alloc(), "", defaults));
    let two_frames = Setup::new(3, 2, 64, 2, 16).unwrap();
    assert!(rt; is_setup(&rt, rt.alloc(), "frames = 2", two_frames));
    let least = "workers = 1\nreplicas = 1\npage_size = 1\nframes = 1\nbuffer = 1";
    assert!(rt; is_setup(&rt, rt.alloc(), least, Setup::new(1, 1, 1, 1, 1).unwrap()));
    let (_, devices) = read_setup(rt.alloc(), SIXTEEN).expect(&rt, "a setup");
    assert!(rt; devices.len() == 16);
}

#[test]
fn every_key_is_read(rt: HostRuntime) {
    let (setup, devices) = read_setup(rt.alloc(), WHOLE).expect(&rt, "a setup");
    assert!(rt; is_whole(&setup, devices.as_slice()));
    let (setup, devices) = read_setup_file(rt.alloc(), WHOLE.as_bytes()).expect(&rt, "a setup");
    assert!(rt; is_whole(&setup, devices.as_slice()));
}

const REFUSED: [(&str, SetupFault); 23] = [
    ("frames = 0", SetupFault::BadValue),
    ("buffer = 0", SetupFault::BadValue),
    ("page_size = 0", SetupFault::BadValue),
    ("replicas = 0", SetupFault::BadValue),
    ("workers = 0", SetupFault::BadValue),
    ("frames = \"2\"", SetupFault::BadKey),
    ("colour = 1", SetupFault::BadKey),
    ("frames =", SetupFault::NotToml),
    ("frames = 1\nframes = 2", SetupFault::NotToml),
    ("frames = 2.0", SetupFault::BadKey),
    // one past each limit
    ("frames = 65537", SetupFault::BadValue),
    ("buffer = 1025", SetupFault::BadValue),
    ("page_size = 65537", SetupFault::BadValue),
    ("replicas = 65", SetupFault::BadValue),
    ("workers = 17", SetupFault::BadValue),
    (SEVENTEEN, SetupFault::BadValue),
    ("[[device]]\npages = 0", SetupFault::BadValue),
    ("[[device]]\npages = 1048577", SetupFault::BadValue),
    // a missing key of a device, and unknown keys
    ("[device]\npages = 1", SetupFault::BadKey),
    ("[[device]]\npages = 1\npath = 1", SetupFault::BadKey),
    // of two faults the first by the keys' order, the types of all devices before their numbers
    ("workers = \"a\"\nbuffer = 0", SetupFault::BadValue),
    ("[[device]]\npages = \"a\"\npath = \"\"", SetupFault::BadKey),
    (
        "[[device]]\npages = 0\n[[device]]\npath = 1",
        SetupFault::BadValue,
    ),
];

#[test]
fn the_first_fault_is_answered(rt: HostRuntime) {
    for (text, want) in REFUSED {
        let fault = read_setup(rt.alloc(), text).err();
        line_holds(&rt, text, fault == Some(want));
    }
    let no_text = read_setup_file(rt.alloc(), [b'#', 255].as_slice());
    assert!(rt; matches!(no_text, Err(SetupFault::NotToml)));
}
