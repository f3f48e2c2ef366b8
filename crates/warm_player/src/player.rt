//! A schedule that is read in pieces, answered line by line.
ghost use Rattle.std.specs.Prelude.{◌≡◌, ◌≤◌, ◌<◌, ◌+◌, ◌^◌, ◌∷◌, ◌++◌, [], false, List, ℕ, length};
ghost use Rattle.std.specs.Prelude.{OnOk, IfOk, IfErr, IfSome, Err};
ghost use Rattle.std.specs.Io.KnownBytes.{Appends, Keeps, Consumes, IsAtEnd};
ghost use Rattle.warm_world.specs.States.{ModelState, opening};
ghost use Rattle.warm_world.specs.declared.play_fault.PlayFault.TheVariants.{BadDevices, Memory};
ghost use Rattle.warm_world.specs.declared.play_fault.PlayFault.TheVariants.{WriteFault};
ghost use Rattle.warm_world.specs.Opening.{AreFew, AreFitting};
ghost use Rattle.warm_world.specs.Views.{IsAtRest, listed, world_view};
ghost use Rattle.warm_world.specs.WorldStands.{WorldStands};
ghost use Rattle.warm_world.specs.declared.event.WorldFault.TheVariants.{Node};
ghost use Rattle.warm_gossip.specs.declared.fault.NodeFault.TheVariants as node;
ghost use Rattle.warm_player.specs.Text.{IsLine};
ghost use Rattle.warm_player.specs.Answers.{bad_line, refused_text};
ghost use Rattle.warm_player.specs.Outputs.{Played};
ghost use Rattle.warm_player.specs.Refusals.{OpeningRefused, PlayRefused, StopsAnswers};
ghost use Rattle.warm_player.specs.Refusals.{StopsPlay};
ghost use Rattle.warm_player.specs.Stream.{session, IsFresh, AddsBytes, AnswersLine};
ghost use Rattle.warm_player.specs.Stream.{PrintsEnding, ReadsOn, Ends};

use crate::parse::{Line, LineFault, MAX_LINE, parse_line};
use crate::printer::{print_answer, print_bad_line, print_end_refused, print_refusal};
use crate::text::first_line;
use std::alloc::Global;
use std::io::{ErrorKind, Read, Write};
use warm_devices::PageDevice;
use warm_gossip::NodeFault;
use warm_world::{BadWorld, PlayFault, Setup, World, WorldFault};

// Prints that the line of this number is bad. Out of line, as the next one, so that other lines
// clear nothing for it. Errors are returned by `?` before an `Ok(())`, here and below: a clause
// that speaks of `Ok` alone is proved so, and not of a `map_err` as the last expression.
#[cold]
#[inline(never)]
fn say_bad<W: Write>(writer: &mut W, number: u64) -> Result<(), PlayFault>
    ensures said { OnOk result
        (Appends (W.contents writer.old) (W.contents writer.new) (bad_line number)) }
    ensures stopped { IfErr result (λ why. why ≡ WriteFault) }
{
    print_bad_line(writer, number).map_err(|_| PlayFault::WriteFault)?;
    Ok(())
}

// Prints that a line is refused since an allocation for it failed.
#[cold]
#[inline(never)]
fn say_no_memory<W: Write>(writer: &mut W) -> Result<(), PlayFault>
    ensures said { OnOk result (Appends (W.contents writer.old) (W.contents writer.new)
        (refused_text (Node node.Memory))) }
    ensures stopped { IfErr result (λ why. why ≡ WriteFault) }
{
    let fault = WorldFault::Node(NodeFault::Memory);
    print_refusal(writer, fault).map_err(|_| PlayFault::WriteFault)?;
    Ok(())
}

// Answers the line of this number.
fn answer<D: PageDevice, W: Write>(
    alloc: Global,
    world: &mut World<D>,
    number: u64,
    line: &[u8],
    writer: &mut W,
) -> Result<(), PlayFault>
    ensures answered { OnOk result ((out : List ℕ)
        × Appends (W.contents writer.old) (W.contents writer.new) out
        × AnswersLine (world_view world.old) number line.now out (world_view world.new)) }
    ensures stopped { IfErr result (λ why. why ≡ WriteFault) }
{
    match parse_line(alloc, line) {
        Err(LineFault::Bad) => {
            say_bad(writer, number)?;
            Ok(())
        }
        Err(LineFault::Memory) => {
            say_no_memory(writer)?;
            Ok(())
        }
        Ok(Line::Nothing) => Ok(()),
        Ok(Line::Act(event)) => {
            let answer = world.step(event);
            print_answer(writer, &answer).map_err(|_| PlayFault::WriteFault)?;
            Ok(())
        }
    }
}

// A world, and the current line: its bytes, up to one more than the maximum length.
#[derive(Drop)]
struct Session<D: PageDevice> {
    alloc: Global,
    world: World<D>,
    number: u64,
    line: Vec<u8>,
}

impl<D: PageDevice> Session<D> {
    // A new world, before the first line.
    fn new(alloc: Global, setup: Setup, devices: Vec<Vec<D>>) -> Result<Session<D>, PlayFault>
        requires few { AreFew (listed D.state devices.items) }
        ensures fresh { IfOk result (λ s. IsFresh (session s)
            (opening setup (listed D.state devices.items))) }
        ensures fitting { OnOk result (AreFitting setup (listed D.state devices.items)) }
        ensures refused { IfErr result (λ why.
            OpeningRefused setup (listed D.state devices.items) why) }
    {
        let world = match World::new(alloc, setup, devices) {
            Ok(world) => world,
            Err(BadWorld::Memory) => return Err(PlayFault::Memory),
            Err(_) => return Err(PlayFault::BadDevices),
        };
        Ok(Session {
            alloc,
            world,
            number: 1,
            line: Vec::new(alloc),
        })
    }

    // Adds a piece to the current line, of which at most one byte more than the maximum is held.
    fn add(&mut self, piece: &[u8]) -> Result<(), PlayFault>
        requires { IsLine piece.now }
        ensures adds { OnOk result
            (AddsBytes (session self.old) piece.now (session self.new)) }
        ensures same { OnOk result (self.new.world ≡ self.old.world) }
        ensures number { OnOk result (self.new.number ≡ self.old.number) }
        ensures full { IfErr result (λ why. why ≡ Memory) }
    {
        let left = (MAX_LINE + 1).saturating_sub(self.line.len());
        let kept = piece.len().min(left);
        self.line.extend_from_slice(&piece[..kept])?;
        Ok(())
    }

    // Answers the held line and clears it. The capacity of its buffer is kept.
    fn answer_held<W: Write>(&mut self, writer: &mut W) -> Result<(), PlayFault>
        ensures answered { OnOk result ((out : List ℕ)
            × Appends (W.contents writer.old) (W.contents writer.new) out
            × AnswersLine (world_view self.old.world) self.old.number self.old.line.items out
            (world_view self.new.world)) }
        ensures number { self.new.number ≡ self.old.number }
        ensures none { OnOk result (self.new.line.items ≡ []) }
        ensures stopped { IfErr result (λ why. why ≡ WriteFault) }
    {
        answer(
            self.alloc,
            &mut self.world,
            self.number,
            self.line.as_slice(),
            writer,
        )?;
        self.line.clear();
        Ok(())
    }

    // Answers the line that ends with these bytes. A line that lies whole in them is read in place.
    fn end_line<W: Write>(&mut self, piece: &[u8], writer: &mut W) -> Result<(), PlayFault>
        requires fits { self.old.number + 1 < 2 ^ 64 }
        requires line { IsLine piece.now }
        ensures goes { OnOk result ((out : List ℕ)
            × Appends (W.contents writer.old) (W.contents writer.new) out
            × ReadsOn (session self.old) (piece.now ++ 10 ∷ []) out
            (session self.new)) }
        ensures number { OnOk result (self.new.number ≡ self.old.number + 1) }
        ensures stopped { IfErr result StopsAnswers }
    {
        if self.line.is_empty() {
            answer(self.alloc, &mut self.world, self.number, piece, writer)?;
            self.number += 1;
            return Ok(());
        }
        self.add(piece)?;
        self.answer_held(writer)?;
        self.number += 1;
        Ok(())
    }

    // Processes the next bytes of the schedule, and answers each line that ends in them: `true`
    // if one does.
    fn feed<W: Write>(&mut self, bytes: &[u8], writer: &mut W) -> Result<bool, PlayFault>
        requires { self.old.number + length bytes.now < 2 ^ 64 }
        ensures goes { OnOk result ((out : List ℕ)
            × Appends (W.contents writer.old) (W.contents writer.new) out
            × ReadsOn (session self.old) bytes.now out (session self.new)) }
        ensures number { OnOk result (self.new.number ≤ self.old.number + length bytes.now) }
        ensures stopped { IfErr result StopsAnswers }
    {
        let mut rest = bytes;
        let mut ends_line = false;
        while let Some((piece, after)) = first_line(rest) {
            self.end_line(piece, writer)?;
            ends_line = true;
            rest = after;
        }
        self.add(rest)?;
        Ok(ends_line)
    }

    // Writes back all pages and flushes the devices, and prints a line if that fails.
    fn settle<W: Write>(&mut self, writer: &mut W) -> Result<(), PlayFault>
        ensures settled { OnOk result ((out : List ℕ)
            × Appends (W.contents writer.old) (W.contents writer.new) out
            × PrintsEnding (world_view self.old.world) out
            × (out ≡ [] → IsAtRest self.new.world)) }
        ensures stopped { IfErr result (λ why. why ≡ WriteFault) }
    {
        match self.world.finish() {
            Ok(()) => Ok(()),
            Err(_) => {
                print_end_refused(writer).map_err(|_| PlayFault::WriteFault)?;
                Ok(())
            }
        }
    }

    // Answers the last line, which has no line end, settles the devices, and flushes the writer.
    // If nothing is printed for the end, no frame is dirty and no device is unflushed, so each
    // honest device has its pages as they were in the frames.
    fn finish<W: Write>(&mut self, writer: &mut W) -> Result<(), PlayFault>
        ensures ended { OnOk result ((answers closing : List ℕ)
            × Appends (W.contents writer.old) (W.contents writer.new) (answers ++ closing)
            × Ends (session self.old) answers closing
            × (closing ≡ [] → IsAtRest self.new.world)) }
        ensures stopped { IfErr result (λ why. why ≡ WriteFault) }
    {
        self.answer_held(writer)?;
        self.settle(writer)?;
        flush_answers(writer)?;
        Ok(())
    }

    // Reads once, answers each line that ends in the bytes read, and flushes these answers, so that
    // a sender that waits for them gets them. `false` at the end of the input. An interrupted read
    // counts as reading nothing.
    fn read_some<R: Read, W: Write>(
        &mut self,
        reader: &mut R,
        buffer: &mut [u8],
        writer: &mut W,
    ) -> Result<bool, PlayFault>
        requires capacity { 0 < length buffer.old }
        requires fits { self.old.number + length buffer.old < 2 ^ 64 }
        ensures goes { OnOk result ((bytes out : List ℕ)
            × Consumes (R.remaining reader.old) (R.remaining reader.new) bytes
            × Appends (W.contents writer.old) (W.contents writer.new) out
            × ReadsOn (session self.old) bytes out (session self.new)) }
        ensures end { IfOk result (λ more. more ≡ false → IsAtEnd (R.remaining reader.new)) }
        ensures number { OnOk result (self.new.number ≤ self.old.number + length buffer.old) }
        ensures stopped { IfErr result StopsPlay }
    {
        match reader.read(buffer) {
            Ok(0) => Ok(false),
            Ok(n) => {
                if !self.feed(&buffer[..n], writer)? {
                    return Ok(true);
                }
                flush_answers(writer)?;
                Ok(true)
            }
            Err(e) => {
                if e.kind() != ErrorKind::Interrupted {
                    return Err(PlayFault::ReadFault);
                }
                Ok(true)
            }
        }
    }
}

// Flushes the writer, so that whoever waits for the answers gets them.
fn flush_answers<W: Write>(writer: &mut W) -> Result<(), PlayFault>
    ensures kept { OnOk result (Keeps (W.contents writer.old) (W.contents writer.new)) }
    ensures stopped { IfErr result (λ why. why ≡ WriteFault) }
{
    writer.flush().map_err(|_| PlayFault::WriteFault)?;
    Ok(())
}

/// The maximum number of reads of the input. An input that has not ended after them is a
/// [`PlayFault::ReadFault`].
pub const MAX_READS: u64 = 1 << 40;

/// The number of bytes of one read.
pub const READ_SIZE: usize = 65_536;

/// Reads a schedule to its end, and answers it line by line in a new world of this setup, whose
/// replicas have these devices, a list for each. All devices have one type, which may be a box of
/// any device. At the end all pages are written back and the devices flushed ([`World::finish`]);
/// if that fails, the last line is `end refused 12 Fault`. The devices are dropped before it
/// returns.
///
/// It reads pieces of at most 65,536 bytes and keeps at most one line, so, apart from its world,
/// the memory use does not grow with the length of the schedule or of a line. Each line is answered
/// before the bytes after it are processed. The writer is flushed before each read that follows
/// answers, and at the end: a sender that waits after a line gets its answer before it sends the
/// next. An interrupted read is repeated.
///
/// - If it returns `Ok`, the reader was read to its end, and the bytes written are exactly one
///   of the possible outputs of the schedule from the opening state: over devices that never fail,
///   only the answers to its lines.
/// - Bad lines and refused events are printed, and are not faults.
/// - If the devices are not one list for each replica, with pages of the setup's size, it
///   returns [`PlayFault::BadDevices`], and nothing was read or written.
/// - If they are, it returns `Memory`, `ReadFault` or `WriteFault`, if not `Ok`. [`PlayFault`]
///   says when each fault occurs.
pub fn play<R: Read, W: Write, D: PageDevice>(
    alloc: Global,
    reader: &mut R,
    writer: &mut W,
    setup: Setup,
    devices: Vec<Vec<D>>,
) -> Result<(), PlayFault>
    requires few { AreFew (listed D.state devices.items) }
    ensures end { OnOk result (IsAtEnd (R.remaining reader.new)) }
    ensures misfit { (AreFitting setup (listed D.state devices.items) → ⊥)
        → (result ≡ Err BadDevices)
        × (reader.new ≡ reader.old) × (writer.new ≡ writer.old) }
    ensures printed { OnOk result (IfSome (R.remaining reader.old) (λ text. (out : List ℕ)
        × Appends (W.contents writer.old) (W.contents writer.new) out
        × Played (opening setup (listed D.state devices.items)) text out)) }
    ensures refused { IfErr result (λ why.
        PlayRefused setup (listed D.state devices.items) why) }
{
    let mut session = Session::new(alloc, setup, devices)?;
    let mut buffer = vec![in alloc; 0u8; READ_SIZE]?;
    for _ in 0..MAX_READS {
        if !session.read_some(reader, buffer.as_mut_slice(), writer)? {
            session.finish(writer)?;
            return Ok(());
        }
    }
    Err(PlayFault::ReadFault)
}
