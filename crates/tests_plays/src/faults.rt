//! How faults are displayed: those of lines, setups, commands, plays and runs, of worlds, and of
//! their nodes and pools.
use test_kit::displays;
use warm_gossip::NodeFault;
use warm_player::{LineFault, NotForWorker};
use warm_pool::PoolFault;
use warm_setup::{CmdFault, PathText, ProgramFault, SetupFault};
use warm_world::{BadSetup, BadWorld, PlayFault, WorldFault};

const POOL: [(PoolFault, &str); 10] = [
    (PoolFault::SizeDiffers, "SizeDiffers"),
    (PoolFault::NoDevice, "NoDevice"),
    (PoolFault::NoPage, "NoPage"),
    (PoolFault::AllFixed, "AllFixed"),
    (PoolFault::ReadFault, "ReadFault"),
    (PoolFault::WriteBack, "WriteBack"),
    (PoolFault::FixesFull, "FixesFull"),
    (PoolFault::OutOfPage, "OutOfPage"),
    (PoolFault::Fixed, "Fixed"),
    (PoolFault::Fault, "Fault"),
];

// A fault of a pool is displayed as such by its node, and by the world.
#[test]
fn pool_faults_are_shown_through_a_world(rt: HostRuntime) {
    for (fault, want) in POOL {
        let fault = WorldFault::Node(NodeFault::Pool(fault));
        assert!(rt; displays(rt.alloc(), &fault, want));
    }
}

const WORLD: [(WorldFault, &str); 5] = [
    (WorldFault::Node(NodeFault::Memory), "Memory"),
    (WorldFault::Node(NodeFault::StaleSlot), "StaleSlot"),
    (WorldFault::NoSuchReplica, "NoSuchReplica"),
    (WorldFault::NoSuchWorker, "NoSuchWorker"),
    (WorldFault::NoSuchFrame, "NoSuchFrame"),
];

const NEW_WORLD: [(BadWorld, &str); 3] = [
    (BadWorld::Memory, "Memory"),
    (BadWorld::SizeDiffers, "SizeDiffers"),
    (BadWorld::DevicesDiffer, "DevicesDiffer"),
];

#[test]
fn world_faults_are_shown_by_their_names(rt: HostRuntime) {
    for (fault, want) in WORLD {
        assert!(rt; displays(rt.alloc(), &fault, want));
    }
    for (fault, want) in NEW_WORLD {
        assert!(rt; displays(rt.alloc(), &fault, want));
    }
    assert!(rt; displays(rt.alloc(), &BadSetup, "BadSetup"));
}

const PLAY: [(PlayFault, &str); 6] = [
    (PlayFault::Memory, "Memory"),
    (PlayFault::ReadFault, "ReadFault"),
    (PlayFault::WriteFault, "WriteFault"),
    (PlayFault::BadLine(7), "BadLine"),
    (PlayFault::NoThread, "NoThread"),
    (PlayFault::BadDevices, "BadDevices"),
];

#[test]
fn play_faults_are_shown_by_their_names(rt: HostRuntime) {
    for (fault, want) in PLAY {
        assert!(rt; displays(rt.alloc(), &fault, want));
    }
}

const SETUP: [(SetupFault, &str); 4] = [
    (SetupFault::Memory, "Memory"),
    (SetupFault::NotToml, "NotToml"),
    (SetupFault::BadKey, "BadKey"),
    (SetupFault::BadValue, "BadValue"),
];

#[test]
fn faults_of_what_is_read_are_shown_by_their_names(rt: HostRuntime) {
    for (fault, want) in SETUP {
        assert!(rt; displays(rt.alloc(), &fault, want));
    }
    assert!(rt; displays(rt.alloc(), &LineFault::Memory, "Memory"));
    assert!(rt; displays(rt.alloc(), &LineFault::Bad, "Bad"));
    assert!(rt; displays(rt.alloc(), &NotForWorker, "NotForWorker"));
}

#[test]
fn faults_of_a_run_show_their_part(rt: HostRuntime) {
    let alloc = rt.alloc();
    let name = PathText::copied_from(alloc, "no/such file").expect(&rt, "memory for a path");
    let unopened = ProgramFault::CannotOpen(name);
    assert!(rt; displays(alloc, &unopened, "cannot open no/such file"));
    let setup = ProgramFault::Setup(SetupFault::BadKey);
    assert!(rt; displays(alloc, &setup, "setup: BadKey"));
    let play = ProgramFault::Play(PlayFault::WriteFault);
    assert!(rt; displays(alloc, &play, "WriteFault"));
    let command = ProgramFault::Command(CmdFault::Memory);
    assert!(rt; displays(alloc, &command, "Memory"));
}
