//! The answers of a peer to digests and to a request.
ghost use Rattle.std.specs.Prelude.{◌≡◌, ◌≤◌, ◌++◌, length, IfOk, OnOk};
ghost use Rattle.warm_history.specs.Histories.{PagesAscend};
ghost use Rattle.warm_history.specs.Losses.{raised};
ghost use Rattle.warm_digest.specs.BucketDigests.{digests_at_horizon};
ghost use Rattle.warm_frames.specs.Chunks.{bucket_messages, entry_messages};
ghost use Rattle.warm_peer.specs.Answers.{AnswersDigests, requested_messages};

use std::alloc::{AllocError, Global};
use warm_digest::{DigestedHistory, differing};
use warm_frames::{DigestTable, EntryList, MAX_ENTRIES, Message};
use warm_history::{Entry, History};
use warm_stamps::{Bucket, BucketSet, ReplicaId};

// A message of these entries.
fn message_of(
    alloc: Global,
    id: ReplicaId,
    horizon: u64,
    part: &[Entry],
) -> Result<Message, AllocError>
    requires rise { PagesAscend part.now }
    requires few { length part.now ≤ MAX_ENTRIES }
    ensures { IfOk result (λ message. message ≡ Message.Entries id horizon part.now) }
{
    let copied = Vec::from_slice(alloc, part)?;
    Ok(Message::Entries {
        sender: id,
        horizon,
        entries: EntryList::holding(copied),
    })
}

// Adds these entries, in messages of up to 1000 entries, all full but the last.
fn push_messages(
    alloc: Global,
    messages: &mut Vec<Message>,
    id: ReplicaId,
    horizon: u64,
    entries: &[Entry],
) -> Result<(), AllocError>
    requires { PagesAscend entries.now }
    ensures { OnOk result (messages.new.items
        ≡ messages.old.items ++ entry_messages id horizon entries.now) }
{
    let mut rest = entries;
    while !rest.is_empty() {
        let (part, later) = rest.split_at(MAX_ENTRIES.min(rest.len()));
        let message = message_of(alloc, id, horizon, part)?;
        messages.push(message)?;
        rest = later;
    }
    Ok(())
}

// The greater of the history's horizon and this one.
fn greater(history: &History, horizon: u64) -> u64
    ensures { result ≡ (raised horizon history.now).horizon }
{
    history.horizon().max(horizon)
}

// Adds the entries of a bucket, at the greater of the horizon and the history's own, in page order.
fn push_bucket(
    alloc: Global,
    messages: &mut Vec<Message>,
    id: ReplicaId,
    history: &History,
    horizon: u64,
    bucket: Bucket,
) -> Result<(), AllocError>
    ensures { OnOk result (messages.new.items
        ≡ messages.old.items ++ bucket_messages id (raised horizon history.now) bucket) }
{
    let kept_from = greater(history, horizon);
    let entries = history.list_at_horizon(bucket, horizon)?;
    push_messages(alloc, messages, id, kept_from, &entries)?;
    Ok(())
}

/// The entries of a bucket, at the greater of the horizon and the history's own, in page order, in
/// messages of up to 1000. It costs a scan of the bucket.
///
/// `AllocError` occurs only if an allocation fails.
pub(crate) fn bucket_at(
    alloc: Global,
    id: ReplicaId,
    history: &History,
    horizon: u64,
    bucket: Bucket,
) -> Result<Vec<Message>, AllocError>
    ensures { IfOk result (λ messages.
        messages.items ≡ bucket_messages id (raised horizon history.now) bucket) }
{
    let mut messages = Vec::new(alloc);
    push_bucket(alloc, &mut messages, id, history, horizon, bucket)?;
    Ok(messages)
}

/// The entries of the requested buckets, at the greater of the horizon and the history's own,
/// bucket by bucket in rising order and each in page order, in messages of up to 1000. It costs a
/// scan of these buckets: older stamps are skipped as they are read.
///
/// `AllocError` occurs only if an allocation fails.
pub(crate) fn requested_messages(
    alloc: Global,
    id: ReplicaId,
    history: &History,
    horizon: u64,
    request: BucketSet,
) -> Result<Vec<Message>, AllocError>
    ensures { IfOk result (λ messages. messages.items
        ≡ requested_messages id (raised horizon history.now) request) }
{
    let mut messages = Vec::new(alloc);
    for bucket in request.iter() {
        push_bucket(alloc, &mut messages, id, history, horizon, bucket)?;
    }
    Ok(messages)
}

// The answer to the digests of another replica, at the greater horizon, of a history with these
// digests there.
fn answer_given(
    alloc: Global,
    id: ReplicaId,
    history: &History,
    horizon: u64,
    own: &DigestTable,
    digests: &DigestTable,
) -> Result<Vec<Message>, AllocError>
    requires { own.now ≡ digests_at_horizon horizon history.now }
    ensures { IfOk result (λ messages.
        AnswersDigests id (raised horizon history.now) digests.now messages.items) }
{
    let request = differing(digests, own);
    // The request is a number of 64 bits.
    let _bits = request.bits();
    if request.is_empty() {
        return Ok(Vec::new(alloc));
    }
    let mut messages = requested_messages(alloc, id, history, horizon, request)?;
    let horizon = greater(history, horizon);
    messages.push(Message::Want {
        sender: id,
        horizon,
        request,
    })?;
    Ok(messages)
}

/// The answer of a peer with this history to the digests of another replica, at the greater
/// horizon: its own entries of the buckets that differ, and then a request for these; nothing if
/// none differs.
///
/// `AllocError` occurs only if an allocation fails.
pub(crate) fn answer_to_digests(
    alloc: Global,
    id: ReplicaId,
    history: &mut DigestedHistory,
    horizon: u64,
    digests: &DigestTable,
) -> Result<Vec<Message>, AllocError>
    ensures answer { IfOk result (λ messages.
        AnswersDigests id (raised horizon history.old.history) digests.now messages.items) }
    ensures same { history.new.history ≡ history.old.history }
{
    let own = history.digests_at_horizon(horizon)?;
    answer_given(alloc, id, history.history(), horizon, &own, digests)
}
