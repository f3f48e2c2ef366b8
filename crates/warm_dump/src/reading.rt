//! Reading a dump.
ghost use Rattle.std.specs.Prelude.{◌≡◌, ◌≢◌, ◌⊎◌, ◌↔◌, ◌+◌, ◌≤◌, ◌<◌, ◌++◌, [], true, false};
ghost use Rattle.std.specs.Prelude.{length, take, List, ℕ, IfOk, IfErr, IfSome, IsTrue, OnOk, Some};
ghost use Rattle.std.specs.Io.KnownBytes.{Consumes, IsAtEnd};
ghost use Rattle.warm_frames.specs.declared.fault.FrameFault.TheVariants as frame_faults;
ghost use Rattle.warm_history.specs.Histories.{entries_of, history_of_entries_at, references_of};
ghost use Rattle.warm_history.specs.Histories.{StandsFor, TakesIn};
ghost use Rattle.warm_history.specs.Losses.{raised};
ghost use Rattle.warm_history.specs.ReferenceSets.{ReferenceSet, with_horizon};
ghost use Rattle.warm_digest.specs.BucketDigests.{digests_of};
ghost use Rattle.warm_dump.specs.declared.fault.DumpFault.TheVariants.{Frame, DigestsDiffer};
ghost use Rattle.warm_dump.specs.declared.fault.DumpFault.TheVariants.{HorizonsDiffer, ReadFault};
ghost use Rattle.warm_dump.specs.Progress.{Agrees, HasBegun, HasRead, IsRefusedForGood, Rejects};
ghost use Rattle.warm_dump.specs.Progress.{TakesMessage};
ghost use Rattle.warm_dump.specs.Reading.{EndsWithDigests, IsDump, IsDumpRefused};

use crate::builder::HistoryBuilder;
use crate::fault::{DumpError, DumpFault};
use std::alloc::Global;
use std::io::{ErrorKind, Read};
use warm_frames::{Decoder, DigestTable, EntryList, Fed, FrameFault, Message};
use warm_history::History;

/// The maximum number of reads of the input. One that does not end by then is a
/// [`DumpFault::ReadFault`].
pub const MAX_DUMP_READS: u64 = 1 << 40;

/// The maximum number of bytes of one read.
pub const DUMP_READ_SIZE: usize = 65536;

// What was read of a dump so far.
#[derive(Drop)]
struct DumpReader {
    alloc: Global,
    decoder: Decoder,
    history: HistoryBuilder,
    // That of the messages, once one has come.
    horizon: Option<u64>,
    // Whether the digests came.
    complete: bool,
    // The number of bytes that were taken.
    bytes_read: u64,
    // The number of them up to which the frames are whole: where the next one starts.
    frame_start: u64,
}

// Whether the horizon is that of the messages before, if there was one.
fn agrees(known: Option<u64>, horizon: u64) -> bool
    ensures { IsTrue result ↔ Agrees known horizon }
{
    match known {
        Some(known) => known == horizon,
        None => true,
    }
}

// The number of bytes that were taken, with these.
fn count(bytes_read: u64, taken: usize) -> Result<u64, DumpFault>
    ensures count { IfOk result (λ count. count ≡ bytes_read + taken) }
    ensures stopped { IfErr result (λ why. why ≡ ReadFault) }
{
    match bytes_read.checked_add(taken as u64) {
        Some(count) => Ok(count),
        None => Err(DumpFault::ReadFault),
    }
}

impl DumpReader {
    // Nothing was read.
    fn new(alloc: Global) -> DumpReader
        ensures { HasRead [] result }
    {
        DumpReader {
            alloc,
            decoder: Decoder::new(alloc),
            history: HistoryBuilder::new(alloc),
            horizon: None,
            complete: false,
            bytes_read: 0,
            frame_start: 0,
        }
    }

    // Takes in the entries of a message.
    fn gather(&mut self, horizon: u64, entries: &EntryList) -> Result<(), DumpFault>
        ensures agrees { OnOk result (Agrees self.old.horizon horizon) }
        ensures horizon { OnOk result (self.new.horizon ≡ Some horizon) }
        ensures history { OnOk result
            (TakesIn self.old.history (references_of (history_of_entries_at horizon entries.now))
            self.new.history) }
        ensures complete { self.new.complete ≡ self.old.complete }
        ensures decoder { self.new.decoder ≡ self.old.decoder }
        ensures counts { (self.new.bytes_read ≡ self.old.bytes_read)
            × (self.new.frame_start ≡ self.old.frame_start) }
        ensures refused { IfErr result (λ why. (why ≡ Frame frame_faults.Memory)
            ⊎ ((why ≡ HorizonsDiffer) × (Agrees self.old.horizon horizon → ⊥))) }
    {
        if !agrees(self.horizon, horizon) {
            return Err(DumpFault::HorizonsDiffer);
        }
        self.history.take(horizon, entries.as_slice())?;
        self.horizon = Some(horizon);
        Ok(())
    }

    // Ends with these digests, if they are those of the history.
    fn close(&mut self, horizon: u64, table: &DigestTable) -> Result<(), DumpFault>
        ensures agrees { OnOk result (Agrees self.old.horizon horizon) }
        ensures history { OnOk result ((S : ReferenceSet) → StandsFor self.old.history S
            → StandsFor self.new.history (with_horizon horizon S)) }
        ensures digests { OnOk result (table.now ≡ digests_of (entries_of self.new.history)) }
        ensures complete { OnOk result (self.new.complete ≡ true) }
        ensures decoder { self.new.decoder ≡ self.old.decoder }
        ensures counts { (self.new.bytes_read ≡ self.old.bytes_read)
            × (self.new.frame_start ≡ self.old.frame_start) }
        ensures refused { IfErr result (λ why. (why ≡ Frame frame_faults.Memory)
            ⊎ ((why ≡ HorizonsDiffer) × (Agrees self.old.horizon horizon → ⊥))
            ⊎ ((why ≡ DigestsDiffer) × Agrees self.old.horizon horizon
            × (table.now ≢ digests_of (entries_of (raised horizon self.old.history))))) }
    {
        if !agrees(self.horizon, horizon) {
            return Err(DumpFault::HorizonsDiffer);
        }
        if !self.history.ends_with(self.alloc, horizon, table)? {
            return Err(DumpFault::DigestsDiffer);
        }
        self.complete = true;
        Ok(())
    }

    // Takes a message.
    fn take_message(&mut self, message: &Message) -> Result<(), DumpFault>
        requires { self.old.complete ≡ false }
        ensures takes { OnOk result (TakesMessage self.old message.now self.new) }
        ensures decoder { self.new.decoder ≡ self.old.decoder }
        ensures counts { (self.new.bytes_read ≡ self.old.bytes_read)
            × (self.new.frame_start ≡ self.old.frame_start) }
        ensures refused { IfErr result (λ why. Rejects self.old message.now why) }
    {
        match message {
            Message::Entries {
                sender: _,
                horizon,
                entries,
            } => self.gather(*horizon, entries),
            Message::Digest {
                sender: _,
                horizon,
                digests,
            } => self.close(*horizon, digests),
            Message::Want { .. } => Err(DumpFault::Frame(FrameFault::BadKind)),
        }
    }

    // Takes bytes of the piece, up to the end of the frame that has begun, and returns how many.
    fn take(&mut self, piece: &[u8]) -> Result<usize, DumpFault>
        requires reads { (seen : List ℕ) × HasBegun seen self.old }
        requires complete { self.old.complete ≡ false }
        requires some { 0 < length piece.now }
        ensures some { IfOk result (λ n. 0 < n) }
        ensures most { IfOk result (λ n. n ≤ length piece.now) }
        ensures read { IfOk result (λ n. (seen : List ℕ) → HasBegun seen self.old
            → HasRead (seen ++ take n piece.now) self.new) }
        ensures refused { IfErr result (λ why. (seen : List ℕ) → HasBegun seen self.old
            → IsRefusedForGood (seen ++ piece.now) self.new.frame_start why) }
    {
        match self.decoder.feed(piece) {
            Ok(fed) => {
                let Fed { taken, message } = fed;
                let bytes_read = count(self.bytes_read, taken)?;
                self.bytes_read = bytes_read;
                match message {
                    Some(message) => self.take_message(message.as_message())?,
                    None => return Ok(taken),
                }
                self.frame_start = bytes_read;
                Ok(taken)
            }
            Err(fault) => Err(DumpFault::Frame(fault)),
        }
    }

    // Takes these bytes, all of them.
    fn take_all(&mut self, bytes: &[u8]) -> Result<(), DumpFault>
        requires { (seen : List ℕ) × HasRead seen self.old }
        ensures read { OnOk result ((seen : List ℕ) → HasRead seen self.old
            → HasRead (seen ++ bytes.now) self.new) }
        ensures refused { IfErr result (λ why. (seen : List ℕ) → HasRead seen self.old
            → IsRefusedForGood (seen ++ bytes.now) self.new.frame_start why) }
    {
        let mut rest = bytes;
        while !rest.is_empty() {
            if self.complete {
                return Err(DumpFault::MoreFollows);
            }
            let taken = self.take(rest)?;
            rest = &rest[taken..];
        }
        Ok(())
    }

    // Reads once, and returns `false` at the end of the input. A read that was interrupted has read
    // nothing.
    fn read_some<R: Read>(&mut self, reader: &mut R, buffer: &mut [u8]) -> Result<bool, DumpFault>
        requires reads { (seen : List ℕ) × HasRead seen self.old }
        requires capacity { 0 < length buffer.old }
        ensures read { OnOk result ((bytes : List ℕ)
            × Consumes (R.remaining reader.old) (R.remaining reader.new) bytes
            × ((seen : List ℕ) → HasRead seen self.old → HasRead (seen ++ bytes) self.new)) }
        ensures end { IfOk result (λ more. more ≡ false → IsAtEnd (R.remaining reader.new)) }
        ensures refused { IfErr result (λ why. (why ≡ ReadFault) ⊎ ((bytes : List ℕ)
            × Consumes (R.remaining reader.old) (R.remaining reader.new) bytes
            × ((seen : List ℕ) → HasRead seen self.old
            → IsRefusedForGood (seen ++ bytes) self.new.frame_start why))) }
    {
        match reader.read(buffer) {
            Ok(0) => Ok(false),
            Ok(n) => {
                self.take_all(&buffer[..n])?;
                Ok(true)
            }
            Err(e) => {
                if e.kind() != ErrorKind::Interrupted {
                    return Err(DumpFault::ReadFault);
                }
                Ok(true)
            }
        }
    }

    // Reads to the end of the input.
    fn read_all<R: Read>(&mut self, reader: &mut R) -> Result<(), DumpFault>
        requires { HasRead [] self.old }
        ensures end { OnOk result (IsAtEnd (R.remaining reader.new)) }
        ensures read { OnOk result (IfSome (R.remaining reader.old)
            (λ text. HasRead text self.new)) }
        ensures refused { IfErr result (λ why. IfSome (R.remaining reader.old)
            (λ text. IsDumpRefused text self.new.frame_start why)) }
    {
        let mut buffer = vec![in self.alloc; 0u8; DUMP_READ_SIZE]?;
        for _ in 0..MAX_DUMP_READS {
            if !self.read_some(reader, buffer.as_mut_slice())? {
                return Ok(());
            }
        }
        Err(DumpFault::ReadFault)
    }

    // Returns the history, if the digests came.
    #[tactic(auto, using(crate::proofs::ReadLemmas::ended_dump, crate::proofs::ReadLemmas::ended_short))]
    fn finish(self) -> Result<History, DumpError>
        ensures dump { IfOk result (λ h. (seen : List ℕ) → HasRead seen self → IsDump seen h) }
        ensures cut { IfErr result (λ error. (seen : List ℕ) → HasRead seen self
            → IsDumpRefused seen error.at error.fault) }
    {
        let DumpReader {
            alloc: _,
            decoder: _,
            history,
            horizon: _,
            complete,
            bytes_read: _,
            frame_start,
        } = self;
        if !complete {
            return Err(DumpError {
                at: frame_start,
                fault: DumpFault::CutShort,
            });
        }
        match history.into_history() {
            Ok(history) => Ok(history),
            Err(_) => Err(DumpError {
                at: frame_start,
                fault: DumpFault::Frame(FrameFault::Memory),
            }),
        }
    }
}

/// Reads a dump to the end of the reader, and returns its history. The frames may be in either
/// format, and their senders any. The digests in the file are those of the history.
///
/// It takes memory for the history that it returns, for one message, its bytes and its entries, and
/// for [`DUMP_READ_SIZE`] bytes that are read at a time. Beside these, entries wait to be joined to
/// the history together: at most as many as a message may have, or an eighth as many as the history
/// has. Their list may keep capacity for as many again, and they are copied while they are joined.
/// A history that was joined so takes less memory than one that takes the entries in message by
/// message.
///
/// It is all or nothing: after a fault no memory is kept. A read that is interrupted is made again.
///
/// Refused by the first fault that the bytes show, from left to right:
/// - `Frame`: a frame's own fault, as [`warm_frames::decode`] has it, or `BadKind` for a request;
/// - `HorizonsDiffer`: a message has another horizon than those before it;
/// - `DigestsDiffer`: the digests are not those of the history that the entries give;
/// - `MoreFollows`: bytes follow the digests;
/// - `CutShort`: the bytes end before the digests do.
///
/// The error says where the frame that shows the fault begins: the number of bytes of whole frames
/// before it.
///
/// Refused at any point:
/// - `Frame(Memory)`: an allocation failed;
/// - `ReadFault`: the reader failed, or [`MAX_DUMP_READS`] reads or 2^64 bytes did not reach its
///   end.
pub fn read_dump<R: Read>(alloc: Global, reader: &mut R) -> Result<History, DumpError>
    ensures end { OnOk result (IsAtEnd (R.remaining reader.new)) }
    ensures dump { IfOk result (λ history. IfSome (R.remaining reader.old)
        (λ text. IsDump text history)) }
    ensures digests { IfOk result (λ history. IfSome (R.remaining reader.old)
        (λ text. EndsWithDigests text (digests_of (entries_of history)))) }
    ensures refused { IfErr result (λ error. IfSome (R.remaining reader.old)
        (λ text. IsDumpRefused text error.at error.fault)) }
{
    let mut dump = DumpReader::new(alloc);
    match dump.read_all(reader) {
        Ok(()) => dump.finish(),
        Err(fault) => Err(DumpError {
            at: dump.frame_start,
            fault,
        }),
    }
}
