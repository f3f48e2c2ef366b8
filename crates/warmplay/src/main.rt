//! `warmplay play [FILE] [--setup FILE]` plays a schedule, from a file or from standard input, to
//! standard output. `warmplay random --seed S --events N [--setup FILE]` writes a schedule drawn at
//! random. `warmplay threads FILE [--setup FILE]` plays a schedule of references and flushes by
//! threads.
#![tactic(auto)]

use std::alloc::Global;
use std::env;
use std::fs::{self, File};
use std::io::{self, BufWriter, Read, Write};
use std::process::ExitCode;
use std::sync::Wait;
use std::thread::Threads;
use warm_devices::{FileDevice, MemDevice, OpenFault, PageDevice};
use warm_pool::MAX_DEVICES;
use warm_schedule::{
    Cmd, CmdFault, DeviceSpec, PathText, PlayFault, SetupFault, command_of, play, play_threads,
    random_schedule, read_setup,
};
use warm_setup::{ProgramFault, non_utf8_argument, outcome_of, read_setup_file};
use warm_world::Setup;

// The size of the output buffer for answers, in bytes.
const OUTPUT_BUFFER_SIZE: usize = 65536;

// The stack that is taken as the program starts, in bytes: half as much again as a play was seen to
// need.
const STACK_SIZE: usize = 262_144;

// Uses the stack once, before anything else takes memory. The system gives a program its stack as
// it is used. If no address space is left for it, the system ends the program by a signal. A call
// of its own, so that the program has this room below it afterwards.
#[inline(never)]
fn take_stack(rt: &HostRuntime) {
    let room = [0u8; STACK_SIZE];
    // A call with a part of it, though of no bytes: an array that nothing uses is left out.
    let _ = rt.stderr().write(&room[..0]);
}

// The command of the program's arguments.
fn parse_command(rt: &HostRuntime) -> Result<Cmd, ProgramFault> {
    let args = match env::args(rt) {
        Ok(args) => args,
        Err(error) => {
            if error.kind() == io::ErrorKind::OutOfMemory {
                return Err(ProgramFault::Command(CmdFault::Memory));
            }
            return Err(ProgramFault::Command(non_utf8_argument(rt.alloc())));
        }
    };
    let words: Vec<String> = match args.collect(rt.alloc()) {
        Ok(words) => words,
        Err(_) => return Err(ProgramFault::Command(CmdFault::Memory)),
    };
    command_of(rt.alloc(), words.as_slice()).map_err(ProgramFault::Command)
}

// The setup and the devices of the file, or the defaults if there is none.
fn setup_in(
    rt: &HostRuntime,
    file: Option<PathText>,
) -> Result<(Setup, Vec<DeviceSpec>), ProgramFault> {
    let Some(path) = file else {
        return read_setup(rt.alloc(), "").map_err(ProgramFault::Setup);
    };
    match fs::read(rt, path.as_str()) {
        Ok(bytes) => read_setup_file(rt.alloc(), bytes.as_slice()).map_err(ProgramFault::Setup),
        Err(error) => {
            if error.kind() == io::ErrorKind::OutOfMemory {
                return Err(ProgramFault::Setup(SetupFault::Memory));
            }
            Err(ProgramFault::CannotOpen(path))
        }
    }
}

// A device of a replica, in a box.
#[derive(Drop)]
enum DeviceBox {
    Memory(Box<MemDevice>),
    File(Box<FileDevice>),
}

fn no_memory() -> ProgramFault {
    ProgramFault::Play(PlayFault::Memory)
}

// A device in memory.
fn in_memory(alloc: Global, pages: u32, page_size: usize) -> Result<DeviceBox, ProgramFault> {
    let Ok(device) = MemDevice::new(alloc, u64::from(pages), page_size) else {
        return Err(no_memory());
    };
    let Ok(device) = Box::new(alloc, device) else {
        return Err(no_memory());
    };
    Ok(DeviceBox::Memory(device))
}

// A device over the file of the replica, which is named if it cannot be opened.
fn in_file(
    rt: &HostRuntime,
    pages: u32,
    page_size: usize,
    path: &PathText,
    replica: u16,
) -> Result<DeviceBox, ProgramFault> {
    let Ok(name) = path.of_replica(rt.alloc(), replica) else {
        return Err(no_memory());
    };
    match FileDevice::open(rt, name.as_str(), u64::from(pages), page_size) {
        Ok(device) => {
            let Ok(device) = Box::new(rt.alloc(), device) else {
                return Err(no_memory());
            };
            Ok(DeviceBox::File(device))
        }
        Err(OpenFault::Memory) => Err(no_memory()),
        Err(OpenFault::Open) => Err(ProgramFault::CannotOpen(name)),
    }
}

fn device_of(
    rt: &HostRuntime,
    spec: &DeviceSpec,
    page_size: usize,
    replica: u16,
) -> Result<DeviceBox, ProgramFault> {
    match &spec.path {
        Some(path) => in_file(rt, spec.pages, page_size, path, replica),
        None => in_memory(rt.alloc(), spec.pages, page_size),
    }
}

// How a schedule is played: line by line, or by threads.
#[derive(Clone, Copy)]
enum Player {
    Lines,
    Threads,
}

// Makes the devices, by replica and then by device, and plays to standard output through a buffer,
// which is flushed at the end.
fn play_over<T: Threads + Wait + Sync, R: Read>(
    rt: &HostRuntime,
    threads: &T,
    player: Player,
    reader: &mut R,
    setup: Setup,
    specs: &[DeviceSpec],
) -> Result<(), ProgramFault> {
    if specs.len() > MAX_DEVICES {
        return Err(ProgramFault::Play(PlayFault::BadDevices));
    }
    let page_size = setup.page_size() as usize;
    let mut devices = Vec::new(rt.alloc());
    for place in 0..setup.replicas() {
        let mut list: Vec<Box<dyn PageDevice + Send>> = Vec::new(rt.alloc());
        for spec in specs {
            let pushed = match device_of(rt, spec, page_size, place + 1)? {
                DeviceBox::Memory(device) => list.push(device),
                DeviceBox::File(device) => list.push(device),
            };
            pushed.map_err(|_| no_memory())?;
        }
        devices.push(list).map_err(|_| no_memory())?;
    }
    let Ok(mut buffered) = BufWriter::with_capacity(rt.alloc(), OUTPUT_BUFFER_SIZE, rt.stdout())
    else {
        return Err(no_memory());
    };
    let played = match player {
        Player::Lines => play(rt.alloc(), reader, &mut buffered, setup, devices),
        Player::Threads => {
            play_threads(threads, rt.alloc(), reader, &mut buffered, setup, devices)
        }
    };
    played.map_err(ProgramFault::Play)
}

// Plays the file, or standard input if there is none.
fn run_play<T: Threads + Wait + Sync>(
    rt: &HostRuntime,
    threads: &T,
    file: Option<PathText>,
    setup: Setup,
    specs: &[DeviceSpec],
) -> Result<(), ProgramFault> {
    let Some(path) = file else {
        return play_over(rt, threads, Player::Lines, &mut rt.stdin(), setup, specs);
    };
    play_file(rt, threads, Player::Lines, path, setup, specs)
}

fn play_file<T: Threads + Wait + Sync>(
    rt: &HostRuntime,
    threads: &T,
    player: Player,
    path: PathText,
    setup: Setup,
    specs: &[DeviceSpec],
) -> Result<(), ProgramFault> {
    let Ok(mut schedule) = File::open(rt, path.as_str()) else {
        return Err(ProgramFault::CannotOpen(path));
    };
    play_over(rt, threads, player, &mut schedule, setup, specs)
}

// Writes a schedule drawn at random through a buffer, which `random_schedule` flushes at the end.
fn run_random(rt: &HostRuntime, seed: u64, events: u32, setup: Setup) -> Result<(), ProgramFault> {
    let Ok(mut buffered) = BufWriter::with_capacity(rt.alloc(), OUTPUT_BUFFER_SIZE, rt.stdout())
    else {
        return Err(ProgramFault::Play(PlayFault::Memory));
    };
    random_schedule(&mut buffered, seed, events, &setup).map_err(ProgramFault::Play)
}

// Faults are found in this order: the command line, the setup file, its text, the schedule's file,
// the devices, the play. `threads` is the runtime too: a function may start threads only with a
// parameter that has the bounds for it, which a `HostRuntime` has in `main` alone.
fn run<T: Threads + Wait + Sync>(rt: &HostRuntime, threads: &T) -> Result<(), ProgramFault> {
    match parse_command(rt)? {
        Cmd::Play { file, setup } => {
            let (setup, specs) = setup_in(rt, setup)?;
            run_play(rt, threads, file, setup, specs.as_slice())
        }
        Cmd::Random {
            seed,
            events,
            setup,
        } => {
            let (setup, _devices) = setup_in(rt, setup)?;
            run_random(rt, seed, events, setup)
        }
        Cmd::Threads { file, setup } => {
            let (setup, specs) = setup_in(rt, setup)?;
            play_file(rt, threads, Player::Threads, file, setup, specs.as_slice())
        }
    }
}

// Prints clap's own text, if there is one. An error if help was requested and could not be written.
// If the text of a refusal could not be written, only the status reports it.
fn print_help(rt: &HostRuntime, ended: &Result<(), ProgramFault>) -> Result<(), PlayFault> {
    let Err(ProgramFault::Command(CmdFault::Refused(error))) = ended else {
        return Ok(());
    };
    if error.print(rt).is_err() && !error.use_stderr() {
        return Err(PlayFault::WriteFault);
    }
    Ok(())
}

fn main(rt: HostRuntime) -> ExitCode {
    take_stack(&rt);
    let mut ended = run(&rt, &rt);
    if let Err(fault) = print_help(&rt, &ended) {
        ended = Err(ProgramFault::Play(fault));
    }
    let outcome = outcome_of(&ended);
    // If writing to standard error fails, only the status reports the fault.
    let _ = outcome.line.write_to(&mut rt.stderr());
    ExitCode::from(outcome.status)
}
