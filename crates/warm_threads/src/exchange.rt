//! The exchange between replicas after their workers have ended.
ghost use Rattle.std.specs.Prelude.{◌≡◌, ◌<◌, ◌≤◌, List, length, IfOk, IfSome, IsNone, OnOk, Some};
ghost use Rattle.std.specs.Prelude.{None};
ghost use Rattle.std.specs.List.{All};
ghost use Rattle.warm_frames.specs.declared.layout.TheConstants.{MAX_ENTRIES};
ghost use Rattle.warm_frames.specs.declared.message.Message.{Message};
ghost use Rattle.warm_frames.specs.Encoding.{Encodes};
ghost use Rattle.warm_frames.specs.Limits.{entries_in};
ghost use Rattle.warm_gossip.specs.declared.call.Call.TheVariants.{Send, Receive};
ghost use Rattle.warm_gossip.specs.declared.call.Reply.TheVariants.{Sent, Answers};
ghost use Rattle.warm_peer.specs.Chunks.{last_page};
ghost use Rattle.warm_threads.specs.Exchanges.{IsReceipt, SendsAll, SendsBucket};
ghost use Rattle.warm_threads.specs.Works.{LeadsBy};

use crate::fault::ReplicaRunFault;
use crossbeam_channel::{Receiver, Sender};
use std::alloc::Global;
use std::sync::{Arc, Wait};
use warm_frames::{MAX_ENTRIES, Message, decode, encode};
use warm_gossip::{Call, Reply};
use warm_stamps::{BUCKETS, Bucket, ByteList, PageId};
use warm_turn::Machine;

/// The maximum number of items of mail that a replica takes.
pub(crate) const MAX_MAIL: u64 = 1_000_000;

/// One item of mail: what a channel carries to the replica whose mail it is.
#[derive(Drop)]
pub(crate) enum SharedMail {
    /// Bytes that spell a message. All replicas that it is sent to share them: they are freed when
    /// the last has received it.
    Bytes(Arc<ByteList, Global>),
    /// The sign that a sender is done.
    Stop,
}

// Sends these bytes, which are not copied, to each of the channels.
fn post_bytes<R: Wait>(
    rt: &R,
    bytes: &Arc<ByteList, Global>,
    boxes: &[Sender<SharedMail>],
) -> Result<(), ReplicaRunFault> {
    for sender in boxes {
        let shared = Arc::try_clone(bytes)?;
        sender.send(rt, SharedMail::Bytes(shared))?;
    }
    Ok(())
}

// Sends a Stop to each of the channels.
fn post_stops<R: Wait>(rt: &R, boxes: &[Sender<SharedMail>]) -> Result<(), ReplicaRunFault> {
    for sender in boxes {
        sender.send(rt, SharedMail::Stop)?;
    }
    Ok(())
}

// The page after which more of the bucket may follow: the last one of a message that is full.
// `None` if nothing follows.
fn next_after(message: &Message) -> Option<PageId>
    ensures full { IfSome result (λ page. MAX_ENTRIES ≤ length (entries_in message.now)) }
    ensures last { IfSome result (λ page. last_page (entries_in message.now) ≡ Some page) }
    ensures rest { IsNone result → length (entries_in message.now) < MAX_ENTRIES }
{
    let Message::Entries { entries, .. } = message else {
        return None;
    };
    let list = entries.as_slice();
    if list.len() < MAX_ENTRIES {
        return None;
    }
    match list.last() {
        Some(entry) => Some(entry.page),
        None => None,
    }
}

// Requests a message of a bucket's entries, after a page if one is given.
fn asked_message<M: Machine<Call = Call, Reply = Reply>>(
    machine: &mut M,
    bucket: Bucket,
    after: Option<PageId>,
) -> Result<Message, ReplicaRunFault>
    ensures { IfOk result (λ message. M.goes (M.view machine.old)
        (Send bucket after) (Sent message) (M.view machine.new)) }
{
    let reply = machine.call(Call::Send { bucket, after });
    match reply {
        Reply::Sent(message) => Ok(message),
        _ => Err(ReplicaRunFault::Memory),
    }
}

// Sends a bucket whole: each message after the last page of the one before.
fn send_bucket<M: Machine<Call = Call, Reply = Reply>, R: Wait>(
    rt: &R,
    alloc: Global,
    machine: &mut M,
    bucket: Bucket,
    boxes: &[Sender<SharedMail>],
) -> Result<(), ReplicaRunFault>
    ensures { OnOk result
        (LeadsBy M.goes (SendsBucket bucket None) (M.view machine.old) (M.view machine.new)) }
{
    let mut after = None;
    for _ in rt.forever() {
        let message = asked_message(machine, bucket, after)?;
        let bytes = ByteList::of(encode(alloc, &message)?);
        let bytes = Arc::new(alloc, bytes)?;
        post_bytes(rt, &bytes, boxes)?;
        let Some(last) = next_after(&message) else {
            return Ok(());
        };
        after = Some(last);
    }
    unreachable!()
}

/// Has the machine send every bucket whole to each of the channels, and then a Stop.
///
/// # Errors
/// `Memory`: an allocation failed, including one of the machine or of a channel. `Closed`: a
/// channel was closed.
pub(crate) fn send_all<M: Machine<Call = Call, Reply = Reply> + Drop, R: Wait>(
    rt: &R,
    alloc: Global,
    machine: M,
    boxes: &[Sender<SharedMail>],
) -> Result<M, ReplicaRunFault>
    ensures { IfOk result (λ m. LeadsBy M.goes SendsAll (M.view machine) (M.view m)) }
{
    let mut machine = machine;
    for number in 0..BUCKETS {
        let Some(bucket) = Bucket::new(number) else {
            unreachable!()
        };
        send_bucket(rt, alloc, &mut machine, bucket, boxes)?;
    }
    post_stops(rt, boxes)?;
    Ok(machine)
}

// Has the machine receive the message that the bytes spell. Its answers are dropped: entries have
// none, and no replica sends another kind of message.
fn receive<M: Machine<Call = Call, Reply = Reply>>(
    alloc: Global,
    machine: &mut M,
    bytes: &[u8],
) -> Result<(), ReplicaRunFault>
    ensures { OnOk result ((message : Message) × (answers : List Message)
        × Encodes bytes.now message
        × M.goes (M.view machine.old) (Receive message) (Answers answers) (M.view machine.new)) }
{
    let Ok(message) = decode(alloc, bytes) else {
        return Err(ReplicaRunFault::Memory);
    };
    let reply = machine.call(Call::Receive(message));
    match reply {
        Reply::Answers(_) => Ok(()),
        _ => Err(ReplicaRunFault::Memory),
    }
}

/// Has the machine receive the messages of a channel, until `stops` Stops or [`MAX_MAIL`] items
/// were received.
///
/// # Errors
/// `Memory`: an allocation failed, including one of the machine, or bytes spelled no message. The
/// remaining mail is dropped.
pub(crate) fn hear_all<M: Machine<Call = Call, Reply = Reply> + Drop, R: Wait>(
    rt: &R,
    alloc: Global,
    machine: M,
    receiver: Receiver<SharedMail>,
    stops: u64,
) -> Result<M, ReplicaRunFault>
    ensures { IfOk result (λ m. LeadsBy M.goes (All IsReceipt) (M.view machine) (M.view m)) }
{
    let mut machine = machine;
    let mut missing = stops;
    for _ in 0..MAX_MAIL {
        if missing == 0 {
            return Ok(machine);
        }
        let Ok(item) = receiver.recv(rt) else {
            return Ok(machine);
        };
        match item {
            SharedMail::Bytes(bytes) => receive(alloc, &mut machine, bytes.as_slice())?,
            SharedMail::Stop => missing -= 1,
        }
    }
    Ok(machine)
}
