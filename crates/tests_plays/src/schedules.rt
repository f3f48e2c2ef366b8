//! Whole schedules and what they print: gossip, refused and failing devices, long lines, buffers
//! and buckets, the largest worlds, and schedules drawn at random. What short schedules print is in
//! checks/rows, whose files the proved program plays.
use crate::player::{add, answers_of, default_setup, each_alone, ended_over, line_holds, texts_of};
use std::alloc::Global;
use std::io::Write;
use std::process::Abort;
use std::str;
use test_kit::{alone, flaky};
use warm_devices::PageDevice;
use warm_player::{play, random_schedule};
use warm_world::{PlayFault, Setup};

pub(crate) const GOSSIP: [&[(&str, &str)]; 7] = [
    // the same time at two replicas
    &[
        ("ref 1 1 0:1 5", "ok"),
        ("ref 2 1 0:1 5", "ok"),
        ("flush 1 1", "ok"),
        ("flush 2 1", "ok"),
        ("send 1 1", "frame 1"),
        ("deliver 2 1", "took 0"),
        ("show 2", "0:1 last 5@2 prev 5@1\nend 1"),
    ],
    // both ways
    &[
        ("ref 1 1 0:1 10", "ok"),
        ("ref 1 1 0:1 20", "ok"),
        ("flush 1 1", "ok"),
        ("ref 2 1 0:1 15", "ok"),
        ("ref 2 1 0:1 30", "ok"),
        ("flush 2 1", "ok"),
        ("send 1 1", "frame 1"),
        ("send 2 1", "frame 2"),
        ("deliver 2 1", "took 0"),
        ("deliver 1 2", "took 0"),
        ("show 1", "0:1 last 30@2 prev 20@1\nend 1"),
        ("show 2", "0:1 last 30@2 prev 20@1\nend 1"),
    ],
    // repeated and out of order
    &[
        ("ref 1 1 0:1 10", "ok"),
        ("flush 1 1", "ok"),
        ("send 1 1", "frame 1"),
        ("ref 1 1 0:1 20", "ok"),
        ("flush 1 1", "ok"),
        ("send 1 1", "frame 2"),
        ("deliver 2 2", "took 0"),
        ("deliver 2 1", "took 0"),
        ("deliver 2 2", "took 0"),
        ("deliver 2 1", "took 0"),
        ("show 2", "0:1 last 20@1 prev 10@1\nend 1"),
        ("deliver 3 1", "took 0"),
        ("deliver 3 1", "took 0"),
        ("show 3", "0:1 last 10@1\nend 1"),
    ],
    // through a third replica, of a page whose device no replica has
    &[
        ("ref 1 1 9:1 7", "ok"),
        ("flush 1 1", "ok"),
        ("send 1 10", "frame 1"),
        ("deliver 2 1", "took 0"),
        ("send 2 10", "frame 2"),
        ("deliver 3 2", "took 0"),
        ("show 3", "9:1 last 7@1\nend 1"),
    ],
    // the greatest time
    &[
        ("ref 1 1 0:1 18446744073709551615", "ok"),
        ("ref 2 1 0:1 18446744073709551615", "ok"),
        ("flush 1 1", "ok"),
        ("flush 2 1", "ok"),
        ("send 1 1", "frame 1"),
        ("deliver 2 1", "took 0"),
        (
            "show 2",
            "0:1 last 18446744073709551615@2 prev 18446744073709551615@1\nend 1",
        ),
    ],
    // digests of equal histories are not answered
    &[("offer 1", "frame 1"), ("deliver 1 1", "took 0")],
    // others are answered by what differs and a request, and both replicas are equal in the end
    &[
        ("ref 1 1 0:1 10", "ok"),
        ("flush 1 1", "ok"),
        ("ref 2 1 0:2 11", "ok"),
        ("flush 2 1", "ok"),
        ("offer 1", "frame 1"),
        ("deliver 2 1", "took 2 from 2"),
        ("deliver 1 2", "took 0"),
        ("deliver 1 3", "took 2 from 4"),
        ("deliver 2 4", "took 0"),
        ("deliver 2 5", "took 0"),
        ("show 1", "0:1 last 10@1\n0:2 last 11@2\nend 2"),
        ("show 2", "0:1 last 10@1\n0:2 last 11@2\nend 2"),
        ("offer 1", "frame 6"),
        ("deliver 2 6", "took 0"),
    ],
];

#[test]
fn messages_bring_what_reached_their_sender(rt: HostRuntime) {
    for lines in GOSSIP {
        let (schedule, want) = texts_of(&rt, rt.alloc(), lines);
        let answers = answers_of(&rt, rt.alloc(), default_setup(), schedule.as_slice());
        assert!(rt; answers.as_slice() == want.as_slice());
    }
}

// A world of three replicas refuses two lists of devices, and one of larger pages a device of 16
// bytes a page: nothing is read.
#[test]
fn devices_that_do_not_fit_are_refused(rt: HostRuntime) {
    for (replicas, page_size, lists) in [(3, 16, 2), (1, 17, 1)] {
        let mut reader: &[u8] = b"show 1\n";
        let mut answers = Vec::new(rt.alloc());
        let setup = Setup::new(replicas, 2, 64, 4, page_size).expect(&rt, "a setup");
        let played = ended_over(rt.alloc(), &mut reader, &mut answers, setup, lists);
        assert!(rt;
            played == Err(PlayFault::BadDevices) && answers.is_empty() && reader.len() == 7
        );
    }
}

// The calls of the boxed device are the read of the page, and at the end its write and a flush, of
// which one fails or none does.
#[test]
fn a_refused_end_is_the_last_line(rt: HostRuntime) {
    let alloc = rt.alloc();
    let refused = "slot 0.1\nok\nok\nend refused 12 Fault\n";
    for (call, want) in [(2, refused), (3, refused), (4, "slot 0.1\nok\nok\n")] {
        let mut reader: &[u8] = b"pin 1 0:1\nput 1 0.1 0 AA\nunpin 1 0.1";
        let mut answers = Vec::new(alloc);
        let setup = Setup::new(1, 1, 1, 1, 16).expect(&rt, "a setup");
        let device = flaky(alloc, 8, call).expect(&rt, "a device");
        let device: Box<dyn PageDevice + Send> = Box::new(alloc, device).expect(&rt, "a box");
        let devices = alone(alloc, device).expect(&rt, "a list");
        let lists = each_alone(alloc, devices).expect(&rt, "a list");
        let played = play(alloc, &mut reader, &mut answers, setup, lists);
        assert!(rt; played == Ok(()) && answers.as_slice() == want.as_bytes());
    }
}

// References of worker 1 of replica 1: to the page of the first number, and then to one whose
// number is greater by `spread` than that of the one before; at times from the first on. Then these
// lines.
fn references(
    rt: &impl Abort,
    alloc: Global,
    count: u32,
    (page, spread): (u32, u32),
    first: u32,
    lines: &str,
) -> Vec<u8> {
    let mut schedule = Vec::new(alloc);
    for index in 0..count {
        let no = page.wrapping_add(spread.wrapping_mul(index));
        let time = first.wrapping_add(index);
        writeln!(&mut schedule, "ref 1 1 0:{no} {time}").expect(rt, "memory for a line");
    }
    add(rt, &mut schedule, 1, lines.as_bytes());
    schedule
}

// A schedule prints ok `count` times, and then this.
fn prints_after(
    rt: &impl Abort,
    alloc: Global,
    setup: Setup,
    schedule: &[u8],
    count: usize,
    want: &[u8],
) {
    let answers = answers_of(rt, alloc, setup, schedule);
    let mut rest = answers.as_slice();
    for _ in 0..count {
        rest = rest.strip_prefix(b"ok\n").expect(rt, "the reference waits");
    }
    assert!(rt; rest == want);
}

// As many replicas, workers and references in a buffer as there may be, and then as many frames.
#[test]
fn the_largest_worlds_play(rt: HostRuntime) {
    let alloc = rt.alloc();
    let setup = Setup::new(64, 16, 1024, 1, 16).expect(&rt, "a setup");
    let lines = "show 1\nref 64 16 0:1 5\nflush 64 16\nshow 64\nflush 64 17\nflush 65 1\n";
    let want =
        "0:0 last 1024@1 prev 1023@1\nend 1\nok\nok\n0:1 last 5@64\nend 1\nrefused 15 NoSuchWorker\nrefused 14 NoSuchReplica\n";
    let schedule = references(&rt, alloc, 1025, (0, 0), 1, lines);
    prints_after(&rt, alloc, setup, &schedule, 1025, want.as_bytes());
    let setup = Setup::new(1, 1, 1, 65_536, 16).expect(&rt, "a setup");
    let lines = "flush 1 1\nwarmstep 1\nwarmstep 1\npin 1 0:2\n";
    let schedule = references(&rt, alloc, 1, (0, 0), 1, lines);
    let want = b"ok\nloaded 0:0\nnone\nslot 1.1\n";
    prints_after(&rt, alloc, setup, &schedule, 1, want);
}

// The first `count` pages of bucket 0, each referenced once at the time of its index; then these
// lines.
fn show_pages(rt: &impl Abort, want: &mut Vec<u8>, count: u32, lines: &str) {
    for index in 0..count {
        let no = index.wrapping_mul(64);
        writeln!(want, "0:{no} last {index}@1").expect(rt, "memory for a line");
    }
    add(rt, want, 1, lines.as_bytes());
}

// A message carries 1000 pages of its bucket, and the next one continues after the last of them.
// Digests that differ are answered by both, and by a request.
#[test]
fn a_long_bucket_takes_two_messages(rt: HostRuntime) {
    let lines = "flush 1 1\nsend 1 0\nsend 1 0 0:63936\ndeliver 2 1\nshow 2\ndeliver 2 2\nshow 2\n\
                 offer 3\ndeliver 1 3\n";
    let schedule = references(&rt, rt.alloc(), 1001, (0, 64), 0, lines);
    let mut want = Vec::new(rt.alloc());
    add(&rt, &mut want, 1, b"ok\nframe 1\nframe 2\ntook 0\n");
    show_pages(&rt, &mut want, 1000, "end 1000\ntook 0\n");
    show_pages(&rt, &mut want, 1001, "end 1001\nframe 3\ntook 3 from 4\n");
    prints_after(&rt, rt.alloc(), default_setup(), &schedule, 1001, &want);
}

// Whether a line of this many bytes like the first one prints this, with the line after it.
fn long_line_prints(rt: &impl Abort, alloc: Global, first: u8, length: usize, want: &str) -> bool {
    let mut schedule = vec![in alloc; first; length].expect(rt, "memory for a line");
    add(rt, &mut schedule, 1, b"\nshow 1\n");
    let answers = answers_of(rt, alloc, default_setup(), schedule.as_slice());
    answers.as_slice() == want.as_bytes()
}

// A line of 262,144 bytes is read, and of one more it is bad, whatever it begins with.
#[test]
fn an_over_long_line_is_bad(rt: HostRuntime) {
    let bad = "bad line 1\nend 0\n";
    let rows = [
        (b'a', 262144, bad),
        (b'a', 262145, bad),
        (b'#', 262144, "end 0\n"),
        (b'#', 262145, bad),
        (b' ', 262145, bad),
    ];
    for (first, length, want) in rows {
        assert!(rt; long_line_prints(&rt, rt.alloc(), first, length, want));
    }
}

fn drawn(rt: &impl Abort, alloc: Global, seed: u64, events: u32) -> Vec<u8> {
    let mut text = Vec::new(alloc);
    random_schedule(&mut text, seed, events, &default_setup()).expect(rt, "a schedule");
    text
}

// Whether a line must not occur in the answers to such a schedule: the only event that may be
// refused is the delivery of the message after the last.
fn is_other(line: &str) -> bool {
    line.starts_with("bad line") || line.starts_with("refused") && line != "refused 16 NoSuchFrame"
}

#[test]
fn random_schedules_play(rt: HostRuntime) {
    assert!(rt; drawn(&rt, rt.alloc(), 7, 0).is_empty());
    for seed in 1..=20u64 {
        let schedule = drawn(&rt, rt.alloc(), seed, 500);
        let answers = answers_of(&rt, rt.alloc(), default_setup(), schedule.as_slice());
        let answers = str::from_utf8(answers.as_slice()).expect(&rt, "a text");
        assert!(rt; !answers.is_empty());
        for line in answers.lines() {
            line_holds(&rt, line, !is_other(line));
        }
    }
}
