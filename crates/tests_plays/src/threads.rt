//! Schedules played by threads: the histories that each replica then prints, of long buckets and of
//! the most replicas, which lines are reported as bad, and devices that do not fit. What short
//! schedules print is in checks/rows.
use crate::player::line_holds;
use std::alloc::Global;
use std::io::Write;
use std::process::Abort;
use std::sync::Wait;
use std::thread::Threads;
use test_kit::alone;
use warm_devices::MemDevice;
use warm_threads::play_threads;
use warm_world::{PlayFault, Setup};

// Replicas, workers of each, and references of a buffer.
type Size = (u16, u16, u16);

const DEFAULT: Size = (3, 2, 64);

fn setup_of(rt: &impl Abort, size: Size) -> Setup {
    let (replicas, workers, buffer) = size;
    Setup::new(replicas, workers, buffer, 4, 16).expect(rt, "a setup")
}

// The end and the output of a play over this many lists of one device with pages of this size.
fn played<R: Threads + Wait + Abort + Sync>(
    rt: &R,
    alloc: Global,
    size: Size,
    lists: u16,
    page_size: usize,
    text: &[u8],
) -> (Result<(), PlayFault>, String) {
    let mut devices = Vec::new(alloc);
    for _ in 0..lists {
        let device = MemDevice::new(alloc, 256, page_size).expect(rt, "memory for a device");
        let list = alone(alloc, device).expect(rt, "memory for a list");
        devices.push(list).expect(rt, "memory for a list");
    }
    let mut reader = text;
    let mut out: Vec<u8> = Vec::new(alloc);
    let setup = setup_of(rt, size);
    let ended = play_threads(rt, alloc, &mut reader, &mut out, setup, devices);
    (ended, String::from_utf8(out).expect(rt, "text"))
}

// The same, over devices that fit the size.
fn played_by<R: Threads + Wait + Abort + Sync>(
    rt: &R,
    alloc: Global,
    size: Size,
    text: &[u8],
) -> (Result<(), PlayFault>, String) {
    played(rt, alloc, size, size.0, 16, text)
}

fn is_printed(got: &(Result<(), PlayFault>, String), want: &str) -> bool {
    got.0 == Ok(()) && got.1.as_str() == want
}

// Whether this fault is returned, and nothing is printed.
fn is_refused(got: &(Result<(), PlayFault>, String), fault: PlayFault) -> bool {
    got.0 == Err(fault) && got.1.as_str() == ""
}

// A line for each of this many pages of a bucket.
fn lines_of(rt: &impl Abort, alloc: Global, pages: u32, before: &str, after: &str) -> String {
    let mut text = String::new(alloc);
    for place in 0..pages {
        let page = u32::wrapping_mul(place, 64);
        writeln!(text, "{before}0:{page}{after}").expect(rt, "memory for a line");
    }
    text
}

// The output of replicas, each of which has these entries.
fn shown_by(rt: &impl Abort, alloc: Global, replicas: u16, entries: &str, count: u32) -> String {
    let mut text = String::new(alloc);
    for number in 1..=replicas {
        writeln!(text, "replica {number}\n{entries}end {count}").expect(rt, "memory for a text");
    }
    text
}

// Pages of a bucket at one of two replicas: a full message, and an empty one; one page in a second
// message; and one in a third.
#[test]
fn a_bucket_is_sent_whole(rt: HostRuntime) {
    for pages in [1000, 1001, 2001] {
        let text = lines_of(&rt, rt.alloc(), pages, "ref 1 1 ", " 7");
        let got = played_by(&rt, rt.alloc(), (2, 1, 64), text.as_bytes());
        let entries = lines_of(&rt, rt.alloc(), pages, "", " last 7@1");
        let want = shown_by(&rt, rt.alloc(), 2, entries.as_str(), pages);
        assert!(rt; is_printed(&got, want.as_str()));
    }
}

// A reference of each of 64 replicas, to a page and at a time of its own, and the entries of all of
// them.
fn one_of_each(rt: &impl Abort, alloc: Global) -> (String, String) {
    let mut text = String::new(alloc);
    let mut entries = String::new(alloc);
    for number in 1..=64u16 {
        writeln!(text, "ref {number} 1 0:{number} 7{number}").expect(rt, "memory for a line");
        writeln!(entries, "0:{number} last 7{number}@{number}").expect(rt, "memory for an entry");
    }
    (text, entries)
}

#[test]
fn sixty_four_replicas_show_all(rt: HostRuntime) {
    let (text, entries) = one_of_each(&rt, rt.alloc());
    let got = played_by(&rt, rt.alloc(), (64, 1, 1), text.as_bytes());
    let want = shown_by(&rt, rt.alloc(), 64, entries.as_str(), 64);
    assert!(rt; is_printed(&got, want.as_str()));
}

// Lines that a play by threads refuses: other events, and replicas and workers that the setup does
// not have.
const BAD_LINES: [&str; 10] = [
    "show 1",
    "horizon 1 0",
    "ref 0 1 0:1 1",
    "ref 4 1 0:1 1",
    "ref 1 0 0:1 1",
    "ref 1 3 0:1 1",
    "ref 1 1 0:18446744073709551616 1",
    "flush 4 1",
    "flush 1 3",
    "word",
];

// Each is reported as the third line, after two good ones.
#[test]
fn bad_lines_are_named(rt: HostRuntime) {
    for line in BAD_LINES {
        let text = format!(in rt.alloc(); "ref 1 1 0:1 1\n\n{line}\nshow 1\n").expect(
            &rt, "a text",
        );
        let got = played_by(&rt, rt.alloc(), DEFAULT, text.as_bytes());
        line_holds(&rt, line, is_refused(&got, PlayFault::BadLine(3)));
    }
}

// A comment without a line end.
#[test]
fn a_line_too_long_is_named(rt: HostRuntime) {
    for (bytes, want) in [(262144, Ok(())), (262145, Err(PlayFault::BadLine(1)))] {
        let text = vec![in rt.alloc(); b'#'; bytes].expect(&rt, "memory for a line");
        let (ended, _) = played_by(&rt, rt.alloc(), DEFAULT, text.as_slice());
        assert!(rt; ended == want);
    }
}

#[test]
fn devices_have_to_fit(rt: HostRuntime) {
    for (lists, page_size) in [(2, 16), (3, 8)] {
        let got = played(&rt, rt.alloc(), DEFAULT, lists, page_size, b"show 1");
        assert!(rt; is_refused(&got, PlayFault::BadDevices));
    }
}
