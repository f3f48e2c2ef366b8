//! How the tests play a schedule: over worlds of devices in memory.
ghost use Rattle.std.specs.Prelude.{◌≡◌, OnOk, IfOk, length};
ghost use Rattle.warm_world.specs.Opening.{AreFew};
ghost use Rattle.warm_world.specs.Views.{listed};

use std::alloc::{AllocError, Global};
use std::io::{Read, Write};
use std::process::Abort;
use test_kit::{alone, memory};
use warm_devices::{MemDevice, PageDevice};
use warm_player::play;
use warm_world::{PlayFault, Setup};

pub(crate) fn default_setup() -> Setup {
    Setup::new(3, 2, 64, 4, 16).unwrap()
}

// Adds a list of one device.
fn add_list<D: PageDevice>(lists: &mut Vec<Vec<D>>, list: Vec<D>) -> Result<(), AllocError>
    requires few { AreFew (listed D.state lists.old.items) }
    requires one { length list.items ≡ 1 }
    ensures { OnOk result (AreFew (listed D.state lists.new.items)) }
{
    lists.push(list)?;
    Ok(())
}

// Each device in a list of its own.
pub(crate) fn each_alone<D: PageDevice>(
    alloc: Global,
    devices: Vec<D>,
) -> Result<Vec<Vec<D>>, AllocError>
    ensures { IfOk result (λ lists. AreFew (listed D.state lists.items)) }
{
    let mut lists = Vec::new(alloc);
    for device in devices {
        add_list(&mut lists, alone(alloc, device)?)?;
    }
    Ok(lists)
}

// This many devices of 256 pages.
fn in_memory(alloc: Global, replicas: u16) -> Result<Vec<MemDevice>, AllocError> {
    let mut devices = Vec::new(alloc);
    for _replica in 0..replicas {
        devices.push(memory(alloc, 256)?)?;
    }
    Ok(devices)
}

// Plays over a device in memory for each replica.
pub(crate) fn ended_over<R: Read, W: Write>(
    alloc: Global,
    reader: &mut R,
    writer: &mut W,
    setup: Setup,
    replicas: u16,
) -> Result<(), PlayFault> {
    let Ok(devices) = in_memory(alloc, replicas) else {
        return Err(PlayFault::Memory);
    };
    let Ok(lists) = each_alone(alloc, devices) else {
        return Err(PlayFault::Memory);
    };
    play(alloc, reader, writer, setup, lists)
}

// The same with the default setup.
pub(crate) fn ended<R: Read, W: Write>(
    alloc: Global,
    reader: &mut R,
    writer: &mut W,
) -> Result<(), PlayFault> {
    ended_over(alloc, reader, writer, default_setup(), 3)
}

// The output of a schedule.
pub(crate) fn answers_of(rt: &impl Abort, alloc: Global, setup: Setup, schedule: &[u8]) -> Vec<u8> {
    let mut reader = schedule;
    let mut answers = Vec::new(alloc);
    ended_over(alloc, &mut reader, &mut answers, setup, setup.replicas()).expect(
        rt,
        "a play to its end",
    );
    answers
}

// Adds a text and its line end.
fn add_line(rt: &impl Abort, bytes: &mut Vec<u8>, text: &str) {
    add(rt, bytes, 1, text.as_bytes());
    add(rt, bytes, 1, b"\n");
}

// The schedule of these lines, and all that it prints. Beside each line is its answer, one or more
// lines, the last without its end.
pub(crate) fn texts_of(
    rt: &impl Abort,
    alloc: Global,
    lines: &[(&str, &str)],
) -> (Vec<u8>, Vec<u8>) {
    let (mut schedule, mut want) = (Vec::new(alloc), Vec::new(alloc));
    for (line, answer) in lines {
        add_line(rt, &mut schedule, line);
        add_line(rt, &mut want, answer);
    }
    (schedule, want)
}

// Ends the test if its test case of this line does not hold: the only place where a line is
// formatted, which is expensive to prove.
pub(crate) fn line_holds(rt: &impl Abort, line: &str, is_so: bool) {
    assert!(rt; is_so, "{line}");
}

// Adds a piece to a text, this many times.
pub(crate) fn add(rt: &impl Abort, text: &mut Vec<u8>, times: u32, piece: &[u8]) {
    for _ in 0..times {
        text.extend_from_slice(piece)
            .expect(rt, "memory for a text");
    }
}
