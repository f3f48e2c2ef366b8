//! Writing a history as a dump, a message at a time.
ghost use Rattle.std.specs.Prelude.{◌≡◌, take, drop, OnOk, IfOk, IfErr};
ghost use Rattle.std.specs.Io.KnownBytes.{Appends};
ghost use Rattle.warm_frames.specs.declared.layout.TheConstants.{MAX_ENTRIES};
ghost use Rattle.warm_frames.specs.Chunks.{entry_messages};
ghost use Rattle.warm_frames.specs.Encoding.{encoding};
ghost use Rattle.warm_history.specs.Histories.{PagesAscend};
ghost use Rattle.warm_dump.specs.Dumps.{dump_of, history_messages, last_message, text_of};
ghost use Rattle.warm_dump.specs.Writing.{StopsWriting};

use crate::fault::DumpFault;
use std::alloc::{AllocError, Global};
use std::io::Write;
use warm_digest::digests;
use warm_frames::{EntryList, MAX_ENTRIES, Message, encode};
use warm_history::laws::prove_is_history;
use warm_history::{BucketEntries, Entry, History};
use warm_stamps::{Bucket, ReplicaId};

// Writes a message as a frame.
fn write_message<W: Write>(
    alloc: Global,
    writer: &mut W,
    message: &Message,
) -> Result<(), DumpFault>
    ensures written { OnOk result
        (Appends (W.contents writer.old) (W.contents writer.new) (encoding message.now)) }
    ensures stopped { IfErr result StopsWriting }
{
    let text = encode(alloc, message)?;
    writer.write_all(&text).map_err(|_| DumpFault::WriteFault)?;
    Ok(())
}

// Takes the next entries of a bucket, up to the maximum of a message.
fn next_chunk(alloc: Global, left: &mut BucketEntries<'_>) -> Result<Vec<Entry>, AllocError>
    ensures chunk { IfOk result (λ es. es.items ≡ take MAX_ENTRIES left.old) }
    ensures left { OnOk result (left.new ≡ drop MAX_ENTRIES left.old) }
{
    let mut chunk = Vec::with_capacity(alloc, MAX_ENTRIES)?;
    while chunk.len() < MAX_ENTRIES {
        match left.next() {
            // Taken apart, since the toolchain has no proof of an entry that is moved whole here.
            Some(Entry { page, hist }) => chunk.push(Entry { page, hist })?,
            None => return Ok(chunk),
        }
    }
    Ok(chunk)
}

// Writes the entries that are left of a bucket, in messages that are as full as can be.
fn write_bucket<W: Write>(
    alloc: Global,
    writer: &mut W,
    sender: ReplicaId,
    horizon: u64,
    mut left: BucketEntries<'_>,
) -> Result<(), DumpFault>
    requires { PagesAscend left }
    ensures written { OnOk result (Appends (W.contents writer.old) (W.contents writer.new)
        (text_of (entry_messages sender horizon left.entry))) }
    ensures stopped { IfErr result StopsWriting }
{
    loop {
        let chunk = next_chunk(alloc, &mut left)?;
        if chunk.is_empty() {
            return Ok(());
        }
        let entries = EntryList::holding(chunk);
        let message = Message::Entries {
            sender,
            horizon,
            entries,
        };
        write_message(alloc, writer, &message)?;
    }
}

// Writes the messages of all entries, bucket by bucket.
fn write_entries<W: Write>(
    alloc: Global,
    writer: &mut W,
    sender: ReplicaId,
    history: &History,
) -> Result<(), DumpFault>
    ensures written { OnOk result (Appends (W.contents writer.old) (W.contents writer.new)
        (text_of (history_messages sender history.now))) }
    ensures stopped { IfErr result StopsWriting }
{
    prove_is_history(history);
    let horizon = history.horizon();
    for bucket in Bucket::all() {
        write_bucket(alloc, writer, sender, horizon, history.bucket(bucket))?;
    }
    Ok(())
}

// Writes the message of the digests.
fn write_digests<W: Write>(
    alloc: Global,
    writer: &mut W,
    sender: ReplicaId,
    history: &History,
) -> Result<(), DumpFault>
    ensures written { OnOk result (Appends (W.contents writer.old) (W.contents writer.new)
        (encoding (last_message sender history.now))) }
    ensures stopped { IfErr result StopsWriting }
{
    let digests = digests(alloc, history)?;
    let message = Message::Digest {
        sender,
        horizon: history.horizon(),
        digests,
    };
    write_message(alloc, writer, &message)
}

/// Writes the history as a dump: the messages of its entries, bucket by bucket and each in page
/// order, up to [`MAX_ENTRIES`] to a message, and then the message of its digests. Each has this
/// sender and the history's horizon. Flushes the writer last.
///
/// A dump that was written reads back equal ([`crate::laws::dump_reads_back`]).
///
/// It takes memory for one message at a time, its entries and its bytes: some 87 KB at most.
///
/// Refused:
/// - `Frame(Memory)`: an allocation failed;
/// - `WriteFault`: the writer failed, or could not be flushed.
///
/// After a fault nothing is said of how much was written; the history is unchanged in any case.
pub fn write_dump<W: Write>(
    alloc: Global,
    writer: &mut W,
    sender: ReplicaId,
    history: &History,
) -> Result<(), DumpFault>
    ensures written { OnOk result (Appends (W.contents writer.old) (W.contents writer.new)
        (dump_of sender history.now)) }
    ensures stopped { IfErr result StopsWriting }
{
    write_entries(alloc, writer, sender, history)?;
    write_digests(alloc, writer, sender, history)?;
    writer.flush().map_err(|_| DumpFault::WriteFault)?;
    Ok(())
}
