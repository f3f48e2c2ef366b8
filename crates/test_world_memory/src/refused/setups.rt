//! Texts of setup files, and paths.
use std::alloc::Global;
use test_kit::cases::{Ended, Met};
use warm_setup::{DeviceSpec, PathText, SetupFault, read_setup, read_setup_file};
use warm_world::Setup;

const TEXT: &str =
    "frames = 7\nreplicas = 2\n[[device]]\npages = 80\n[[device]]\npages = 8\npath = \"pages\"\n";

// Texts that are not a setup, and the fault of each.
const BAD: [(&str, SetupFault); 4] = [
    ("frames", SetupFault::NotToml),
    ("colour = 1", SetupFault::BadKey),
    ("[[device]]\npath = \"pages\"\n", SetupFault::BadKey),
    ("[[device]]\npath = \"\"\npages = 1\n", SetupFault::BadValue),
];

// Whether a device has this many pages, and this path.
fn is_device(device: Option<&DeviceSpec>, pages: u32, path: &str) -> bool {
    match device {
        Some(
            DeviceSpec {
                pages: found,
                path: None,
            },
        ) => *found == pages && path.is_empty(),
        Some(
            DeviceSpec {
                pages: found,
                path: Some(text),
            },
        ) => { *found == pages && text.as_str() == path }
        None => false,
    }
}

// Whether this is the meaning of the text, with the defaults for missing keys.
fn is_meant(setup: Setup, devices: &[DeviceSpec]) -> bool {
    setup.frames() == 7
        && setup.replicas() == 2
        && setup.workers() == 2
        && devices.len() == 2
        && is_device(devices.first(), 80, "")
        && is_device(devices.last(), 8, "pages")
}

// The meaning of a text, or its fault. An allocation failure says nothing about the text, which is
// read again.
fn read(met: &mut Met, alloc: Global, text: &str) -> Result<(Setup, Vec<DeviceSpec>), SetupFault> {
    let read = read_setup(alloc, text);
    if let Err(SetupFault::Memory) = &read {
        met.count();
        return read_setup(alloc, text);
    }
    read
}

fn text(met: &mut Met, alloc: Global) -> Result<(), Ended> {
    let Ok((setup, devices)) = read(met, alloc, TEXT) else {
        return Err(met.broken("a setup is refused"));
    };
    met.holds(is_meant(setup, &devices), "a setup means something else")
}

fn bad_texts(met: &mut Met, alloc: Global) -> Result<(), Ended> {
    for (text, why) in BAD {
        let is_bad = match read(met, alloc, text) {
            Ok(_) => false,
            Err(fault) => fault == why,
        };
        met.holds(is_bad, "a text that is no setup is refused otherwise")?;
    }
    Ok(())
}

fn file(met: &mut Met, alloc: Global) -> Result<(), Ended> {
    let (setup, devices) = match read_setup_file(alloc, TEXT.as_bytes()) {
        Ok(read) => read,
        Err(fault) => {
            met.refuse(fault == SetupFault::Memory, "the bytes are a setup")?;
            let Ok(read) = read_setup_file(alloc, TEXT.as_bytes()) else {
                return Err(met.broken("a setup file is refused again"));
            };
            read
        }
    };
    met.holds(
        is_meant(setup, &devices),
        "a setup file means something else",
    )
}

// A path that is copied, and that of a replica's file.
fn paths(met: &mut Met, alloc: Global) -> Result<(), Ended> {
    let path = match PathText::copied_from(alloc, "pages") {
        Ok(path) => path,
        Err(_) => {
            met.refuse(true, "")?;
            PathText::copied_from(alloc, "pages")?
        }
    };
    let name = match path.of_replica(alloc, 64) {
        Ok(name) => name,
        Err(_) => {
            met.refuse(path.as_str() == "pages", "a refused name changes the path")?;
            path.of_replica(alloc, 64)?
        }
    };
    met.holds(
        name.as_str() == "pages.64",
        "a replica's file is named otherwise",
    )
}

pub(crate) fn rows(met: &mut Met, alloc: Global) -> Result<(), Ended> {
    text(met, alloc)?;
    bad_texts(met, alloc)?;
    file(met, alloc)?;
    paths(met, alloc)
}
