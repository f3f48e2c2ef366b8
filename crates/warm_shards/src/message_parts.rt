//! The part of a message for one shard.
ghost use Rattle.std.specs.Prelude.{◌≡◌, IfOk};
ghost use Rattle.warm_frames.specs.Entries.{FitsInFrame};
ghost use Rattle.warm_frames.specs.Limits.{entries_in};
ghost use Rattle.warm_shards.specs.Parts.{part_of_message, sender_in};
ghost use Rattle.warm_visits.specs.Parts.{part_of_entries};
ghost use Rattle.warm_visits.specs.ShardNumbers.{IsShardCount};

use std::alloc::{AllocError, Global};
use warm_frames::{EntryList, Message};
use warm_history::Entry;
use warm_stamps::ReplicaId;
use warm_visits::shard_of;

// The replica that sent a message.
fn sender_of(message: &Message) -> ReplicaId
    ensures { result ≡ sender_in message.now }
{
    match message {
        Message::Entries { sender, .. } => *sender,
        Message::Digest { sender, .. } => *sender,
        Message::Want { sender, .. } => *sender,
    }
}

/// The entries of pages of the shard of this number, of this many, in order. It reads each entry
/// once.
///
/// `AllocError` occurs only if an allocation fails.
pub fn part_of_entries(
    alloc: Global,
    entries: &[Entry],
    shards: usize,
    shard: usize,
) -> Result<Vec<Entry>, AllocError>
    requires { IsShardCount shards }
    ensures { IfOk result (λ part. part.items ≡ part_of_entries shards shard entries.now) }
{
    let mut part = Vec::new(alloc);
    for entry in entries {
        if shard_of(shards, entry.page) == shard {
            part.push(*entry)?;
        }
    }
    Ok(part)
}

// The entries that a message brings to the shard. `AllocError` occurs only if an allocation fails.
fn entries_for(
    alloc: Global,
    message: &Message,
    shards: usize,
    shard: usize,
) -> Result<Vec<Entry>, AllocError>
    requires { IsShardCount shards }
    ensures part { IfOk result (λ part. part.items
        ≡ part_of_entries shards shard (entries_in message.now)) }
    ensures fits { IfOk result (λ part. FitsInFrame part.items) }
{
    let Message::Entries { entries, .. } = message else {
        return Ok(Vec::new(alloc));
    };
    let part = part_of_entries(alloc, entries.as_slice(), shards, shard)?;
    Ok(part)
}

/// What a message brings to the shard of this number, of this many: a message of the same sender
/// and horizon, with the entries of pages of the shard. If each shard receives its part, all
/// together have received the message ([`crate::laws::parts_are_the_whole`]). It reads each entry
/// once.
///
/// `AllocError` occurs only if an allocation fails.
pub fn part_of_message(
    alloc: Global,
    message: &Message,
    shards: usize,
    shard: usize,
) -> Result<Message, AllocError>
    requires { IsShardCount shards }
    ensures { IfOk result (λ part. part ≡ part_of_message shards shard message.now) }
{
    let part = entries_for(alloc, message, shards, shard)?;
    Ok(Message::Entries {
        sender: sender_of(message),
        horizon: message.horizon(),
        entries: EntryList::holding(part),
    })
}
