//! Schedules as computed by an independent program: PCG-XSH-RR 64/32 written from its published
//! description, which gives the published first words of the state 42 and the stream 54.
ghost use Rattle.std.specs.Prelude.{◌<◌};

use std::alloc::Global;
use std::process::Abort;
use warm_random::write_schedule;

// This seed gives this schedule.
fn gives(
    rt: &impl Abort,
    alloc: Global,
    seed: u64,
    events: u32,
    replicas: u16,
    workers: u16,
    want: &str,
)
    requires replicas { 0 < replicas }
    requires workers { 0 < workers }
{
    let mut text = Vec::new(alloc);
    write_schedule(&mut text, seed, events, replicas, workers).expect(rt, "the schedule");
    assert!(rt; text.as_slice() == want.as_bytes());
}

const THREE_REPLICAS: &str = "ref 3 2 0:211 1\ndeliver 1 1\nref 3 2 0:153 3\nref 3 2 0:228 4\n\
     ref 3 2 0:46 5\nflush 1 1\nsend 3 5\nref 2 2 0:49 8\n\
     ref 3 2 0:51 9\nsend 3 31\nflush 2 2\ndeliver 1 1\n\
     ref 3 2 0:110 13\nref 1 1 0:243 14\ndeliver 1 2\nflush 3 1\n\
     show 1\nref 1 2 0:208 18\nflush 1 2\nflush 2 1\n\
     send 3 37\ndeliver 1 3\nref 3 2 0:210 23\nsend 2 13\n";

const LARGEST_SETUP: &str = "ref 39 14 0:59 1\nsend 6 9\nshow 56\nref 55 1 0:249 4\n\
     send 23 49\nref 50 13 0:151 6\nref 31 12 0:254 7\nref 2 16 0:83 8\n\
     send 52 37\nflush 9 9\ndeliver 53 1\nref 26 3 0:71 12\n\
     ref 50 7 0:18 13\ndeliver 11 4\nref 1 7 0:247 15\nref 54 10 0:208 16\n\
     ref 41 8 0:25 17\nref 7 14 0:14 18\nref 4 9 0:69 19\nflush 61 15\n\
     show 26\nshow 2\nref 33 3 0:82 23\nref 40 9 0:59 24\n";

const ONE_WORKER: &str = "ref 1 1 0:95 1\nsend 1 23\nshow 1\nref 1 1 0:220 4\n\
     send 1 35\ndeliver 1 1\nref 1 1 0:58 7\nref 1 1 0:158 8\n\
     deliver 1 2\nflush 1 1\nref 1 1 0:118 11\nref 1 1 0:12 12\n";

#[test]
fn seeds_give_their_schedules(rt: HostRuntime) {
    gives(&rt, rt.alloc(), 1, 24, 3, 2, THREE_REPLICAS);
    gives(&rt, rt.alloc(), u64::MAX, 24, 64, 16, LARGEST_SETUP);
    gives(&rt, rt.alloc(), 7, 12, 1, 1, ONE_WORKER);
}

#[test]
fn no_events_write_nothing(rt: HostRuntime) {
    gives(&rt, rt.alloc(), 7, 0, 3, 2, "");
}

// A writer that takes a line and a half.
#[test]
fn a_writer_that_fails_ends_the_schedule(rt: HostRuntime) {
    let mut text = [0u8; 20];
    let mut rest = text.as_mut_slice();
    assert!(rt; write_schedule(&mut rest, 1, 16, 3, 2).is_err());
}
