//! Readers and writers of `play` that give bytes one by one, are interrupted, or fail, and writers
//! of `random_schedule` that mark or fail a flush: behaviour that no contract covers.
use crate::player::{add, ended, texts_of};
use crate::schedules::GOSSIP;
use std::alloc::Global;
use std::io::Write;
use std::process::Abort;
use test_kit::{BrokenReader, CountingReader, FullWriter, MarkingWriter, TrickleReader};
use warm_player::random_schedule;
use warm_world::{PlayFault, Setup};

// A schedule that is read in this way prints this.
fn trickles(rt: &impl Abort, alloc: Global, schedule: &[u8], want: &[u8]) {
    let mut reader = TrickleReader::new(schedule);
    let mut answers = Vec::new(alloc);
    let played = ended(alloc, &mut reader, &mut answers);
    assert!(rt; played == Ok(()) && answers.as_slice() == want);
}

// 150,699 reads of one byte each, with as many interrupted ones, are more than 2^18: 13,699 lines
// of 11 bytes, and 10 bytes of the last line.
#[test]
fn a_schedule_may_come_in_bytes(rt: HostRuntime) {
    for lines in GOSSIP {
        let (schedule, want) = texts_of(&rt, rt.alloc(), lines);
        trickles(&rt, rt.alloc(), schedule.as_slice(), want.as_slice());
    }
    let mut schedule = Vec::new(rt.alloc());
    add(&rt, &mut schedule, 13_700, b"  show 001\n");
    schedule.truncate(150_699);
    let mut want = Vec::new(rt.alloc());
    add(&rt, &mut want, 13_700, b"end 0\n");
    trickles(&rt, rt.alloc(), schedule.as_slice(), want.as_slice());
}

// If lines are read in pieces, the answer to each is flushed separately, and nothing is flushed in
// the middle of a line.
#[test]
fn answers_are_flushed_before_the_next_read(rt: HostRuntime) {
    let mut reader = TrickleReader::new(b"show 1\nshow 9\nx");
    let mut writer = MarkingWriter::new(rt.alloc());
    let played = ended(rt.alloc(), &mut reader, &mut writer);
    let want = "end 0\n|refused 14 NoSuchReplica\n|bad line 3\n|";
    assert!(rt; played == Ok(()) && writer.taken() == want.as_bytes());
}

// The complete line was answered, and the incomplete next one was not.
#[test]
fn a_failed_read_ends_the_play(rt: HostRuntime) {
    let mut reader = BrokenReader::new(b"show 1\nshow 2");
    let mut answers = Vec::new(rt.alloc());
    let played = ended(rt.alloc(), &mut reader, &mut answers);
    assert!(rt; played == Err(PlayFault::ReadFault) && answers.as_slice() == b"end 0\n".as_slice());
}

// How a play ends whose writer takes this many bytes.
fn ended_in(alloc: Global, left: usize) -> Result<(), PlayFault> {
    let mut reader: &[u8] = b"show 1\nref 1 1 0:1 1\nflush 1 1\n";
    let mut writer = FullWriter::new(left);
    ended(alloc, &mut reader, &mut writer)
}

// "end 0\nok\nok\n" has 12 bytes. Each write but the first may fail, and after the last one the
// flush.
#[test]
fn a_failed_write_ends_the_play(rt: HostRuntime) {
    for left in 0..13usize {
        let played = ended_in(rt.alloc(), left);
        assert!(rt; played == Err(PlayFault::WriteFault), "of {left} bytes");
    }
    assert!(rt; ended_in(rt.alloc(), 13) == Ok(()));
}

// That a play ends after 2^40 reads is beyond a test.
#[test]
fn a_read_asks_for_65_536_bytes(rt: HostRuntime) {
    let mut reader = CountingReader::new(b"show 1\n");
    let mut answers = Vec::new(rt.alloc());
    let played = ended(rt.alloc(), &mut reader, &mut answers);
    assert!(rt; played == Ok(()) && reader.most() == 65_536);
}

// The first lines of the schedule of seed 7 for one replica with one worker, as the independent
// program of tests_values gives them: 32 bytes.
const DRAWN: &str = "ref 1 1 0:95 1\nsend 1 23\nshow 1\n";

// Draws that many lines of it.
fn draw<W: Write>(writer: &mut W, events: u32) -> Result<(), PlayFault> {
    let setup = Setup::new(1, 1, 1, 1, 16).unwrap();
    random_schedule(writer, 7, events, &setup)
}

// The writer is flushed after the last line, even if there is none, and a failed flush is not Ok.
#[test]
fn a_drawn_schedule_is_flushed(rt: HostRuntime) {
    for (events, len) in [(3, 32), (1, 15), (0, 0usize)] {
        let mut writer = MarkingWriter::new(rt.alloc());
        assert!(rt; draw(&mut writer, events) == Ok(()));
        let lines = writer.taken().strip_suffix(b"|");
        assert!(rt; lines == DRAWN.as_bytes().get(..len));
        let mut writer = FullWriter::new(len);
        assert!(rt; draw(&mut writer, events) == Err(PlayFault::WriteFault));
        let mut writer = FullWriter::new(len.wrapping_add(1));
        assert!(rt; draw(&mut writer, events) == Ok(()));
    }
}
