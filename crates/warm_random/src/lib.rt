//! Schedules drawn at random: the same lines for the same seed, everywhere.
//!
//! The words are those of the generator PCG32 (`Lcg64Xsh32` of the crate `rand_pcg`), which takes
//! the seed as its state and 1 as its stream. docs/FORMATS.md has the table of the lines and the
//! order in which their fields are drawn.
#![tactic(auto)]

ghost use Rattle.std.specs.Prelude.{◌≡◌, ◌≤◌, ◌<◌, ◌+◌, ◌^◌, OnOk};
ghost use Rattle.std.specs.Io.KnownBytes.{Appends};
ghost use Rattle.warm_random.specs.Drawing.{below, draw_up_to, line, is_send, line_text};
ghost use Rattle.warm_random.specs.Drawing.{schedule_text};

use rand_core::utils::NextWord;
use rand_pcg::Lcg64Xsh32;
use std::io::{self, Write};
use warm_stamps::BUCKETS;

/// A line of a schedule. Its fields are the numbers that it contains.
#[derive(Clone, Copy, Debug, PartialEq, Eq)]
pub enum DrawnLine {
    /// `ref REPLICA WORKER 0:PAGE TIME`: a page from 0 to 255 of device 0.
    Ref {
        replica: u64,
        worker: u64,
        page: u64,
        time: u64,
    },
    /// `flush REPLICA WORKER`
    Flush {
        replica: u64,
        worker: u64,
    },
    /// `send REPLICA BUCKET`: a bucket from 0 to 63.
    Send {
        replica: u64,
        bucket: u64,
    },
    /// `deliver REPLICA MESSAGE`: the number of a message that was sent before, or of the next one.
    Deliver {
        replica: u64,
        message: u64,
    },
    /// `show REPLICA`
    Show {
        replica: u64,
    },
}

impl DrawnLine {
    fn is_send(self) -> bool
        ensures { result ≡ is_send self }
    {
        match self {
            DrawnLine::Send { .. } => true,
            _ => false,
        }
    }

    // Writes the line and its end.
    fn write_to<W: Write>(self, writer: &mut W) -> io::Result<()>
        ensures { let text = line_text self in
            OnOk result (Appends (W.contents writer.old) (W.contents writer.new) text) }
    {
        match self {
            DrawnLine::Ref {
                replica,
                worker,
                page,
                time,
            } => writeln!(writer, "ref {replica} {worker} 0:{page} {time}"),
            DrawnLine::Flush { replica, worker } => writeln!(writer, "flush {replica} {worker}"),
            DrawnLine::Send { replica, bucket } => writeln!(writer, "send {replica} {bucket}"),
            DrawnLine::Deliver { replica, message } => writeln!(
                writer,
                "deliver {replica} {message}"
            ),
            DrawnLine::Show { replica } => writeln!(writer, "show {replica}"),
        }
    }
}

fn below(words: &mut Lcg64Xsh32, bound: u64) -> u64
    requires { 0 < bound }
    ensures value { (result, words.new) ≡ below bound words.old }
    ensures limit { result < bound }
{
    u64::from(words.next_word()) % bound
}

fn up_to(words: &mut Lcg64Xsh32, most: u64) -> u64
    requires { 0 < most }
    ensures { (result, words.new) ≡ draw_up_to most words.old }
{
    1 + below(words, most)
}

// The next line. Its number is the time of a reference, and `sends` is the number of sends among
// the lines before it.
fn draw_line(
    words: &mut Lcg64Xsh32,
    replicas: u64,
    workers: u64,
    time: u64,
    sends: u64,
) -> DrawnLine
    requires replicas { 0 < replicas }
    requires workers { 0 < workers }
    requires sends { sends + 1 < 2 ^ 64 }
    ensures { (result, words.new) ≡ line replicas workers time sends words.old }
{
    match below(words, 8) {
        0..=3 => DrawnLine::Ref {
            replica: up_to(words, replicas),
            worker: up_to(words, workers),
            page: below(words, 256),
            time,
        },
        4 => DrawnLine::Flush {
            replica: up_to(words, replicas),
            worker: up_to(words, workers),
        },
        5 => DrawnLine::Send {
            replica: up_to(words, replicas),
            bucket: below(words, u64::from(BUCKETS)),
        },
        6 => DrawnLine::Deliver {
            replica: up_to(words, replicas),
            message: up_to(words, sends + 1),
        },
        _ => DrawnLine::Show {
            replica: up_to(words, replicas),
        },
    }
}

/// Writes the schedule of `events` lines that this seed gives for worlds of this many replicas,
/// with this many workers each. With no events it writes nothing. It keeps one line at a time, and
/// is allocation-free.
///
/// An error is that of the writer; how much was written before it is unspecified.
pub fn write_schedule<W: Write>(
    writer: &mut W,
    seed: u64,
    events: u32,
    replicas: u16,
    workers: u16,
) -> io::Result<()>
    requires replicas { 0 < replicas }
    requires workers { 0 < workers }
    ensures { let text = schedule_text seed events replicas workers in
        OnOk result (Appends (W.contents writer.old) (W.contents writer.new) text) }
{
    let mut words = Lcg64Xsh32::new(seed, 1);
    let mut sends: u64 = 0;
    for before in 0..u64::from(events) {
        let line = draw_line(
            &mut words,
            u64::from(replicas),
            u64::from(workers),
            before + 1,
            sends,
        );
        line.write_to(writer)?;
        sends += u64::from(line.is_send());
    }
    Ok(())
}
