//! Events, and their answers.
ghost use Rattle.std.specs.Prelude.{◌≡◌};
ghost use Rattle.warm_world.specs.Faults.{bad_code_of, bad_name_of, code_of, name_of};
ghost use Rattle.warm_gossip.specs.declared.fault.NodeFault.TheVariants as node;
ghost use Rattle.warm_world.specs.declared.event.WorldFault.TheVariants as fault;
ghost use Rattle.warm_world.specs.declared.event.BadWorld.TheVariants as bad;
ghost use Rattle.warm_world.specs.Effects.{replica_of, worker_of, message_of};
ghost use Rattle.warm_world.specs.Replicas.{answered};

use crate::shown::ShownHistory;
use std::alloc::AllocError;
use thiserror::Error;
use warm_gossip::NodeFault;
use warm_pool::Slot;
use warm_stamps::{Bucket, ByteList, PageId, PageList};

/// An event of a world. Replicas, workers and messages are numbered from 1.
#[derive(Debug, Drop)]
pub enum Event {
    /// A worker of a replica references a page at a time: replica, worker, page, time. The
    /// reference is added to the worker's buffer, which is flushed first if it is full.
    Refer(u16, u16, PageId, u64),
    /// A worker's buffer is flushed into the replica's history: replica, worker.
    Flush(u16, u16),
    /// A replica sends its first [`warm_frames::MAX_ENTRIES`] entries of a bucket, of those on
    /// pages after the given one, as a message: replica, bucket, page.
    Send(u16, Bucket, Option<PageId>),
    /// A replica sends the digests of all its buckets as a message.
    Offer(u16),
    /// A replica, the sender or another, receives a stored message: replica, number of the message.
    /// The replica's horizon becomes the message's if that is greater. Entries are joined into the
    /// replica's history, all of them or none. Digests and a request are answered by messages,
    /// which are stored after the others, all of them or none.
    Deliver(u16, u64),
    /// A page is pinned in a replica's pool, and loaded into a frame if it isn't resident:
    /// replica, page. It is not a reference.
    Pin(u16, PageId),
    /// A pin is removed from a slot's page: replica, slot.
    Unpin(u16, Slot),
    /// Bytes are written into a slot's page: replica, slot, offset of the first byte, bytes.
    Put(u16, Slot, u32, ByteList),
    /// Bytes of a slot's page are requested: replica, slot, offset of the first byte, number of
    /// bytes.
    Get(u16, Slot, u32, u32),
    /// The page that would be evicted next from a replica's pool is requested.
    Victim(u16),
    /// A replica's warm-up list is requested, cut to its first pages: replica, number of pages.
    Warm(u16, u32),
    /// A replica loads the first page of its warm-up list, cut to the frames of its pool, that is
    /// not resident and that its devices have.
    WarmStep(u16),
    /// A replica writes back its pages, and then forgets its history, the references in its
    /// buffers, and which pages were resident. Its horizon is 0 again.
    Restart(u16),
    /// A replica forgets all stamps before a time, and keeps that time as its horizon: replica,
    /// time. A time that is not greater than its horizon changes nothing.
    Horizon(u16, u64),
    /// A replica's history is requested.
    Show(u16),
}

/// The answer to an event.
#[derive(Debug, Drop)]
pub enum Answer {
    /// Refer, Flush, Unpin, Put or Restart succeeded.
    Done,
    /// Show: a copy of the history.
    Shown(ShownHistory),
    /// Send and Offer: the number of the message, counted from 1 over all messages of the world.
    FrameNo(u64),
    /// Deliver: the number of answering messages, and the message number of the first of them; 0
    /// and 0 if there is none.
    Took { count: u64, first: u64 },
    /// Pin: the slot of the page.
    Pinned(Slot),
    /// Get: the bytes.
    Bytes(ByteList),
    /// Victim: the page that would be evicted next; none if no resident page is unpinned.
    Page(Option<PageId>),
    /// Warm: the pages that leave last, the hottest first.
    Pages(PageList),
    /// WarmStep: the page that was loaded, if any.
    Loaded(Option<PageId>),
    /// Horizon: the replica's horizon afterwards.
    Kept(u64),
    /// The event was refused; nothing that a caller sees has changed but counts of devices'
    /// failures.
    Refused(WorldFault),
}

/// Why an event was refused. The first fault that applies is returned: a missing replica, worker or
/// message before a refusal of the node.
#[derive(Clone, Copy, Debug, PartialEq, Eq, Error)]
pub enum WorldFault {
    /// 1 and 4 to 13: the refusal of the replica's node. `Memory`, which is 1, also occurs if
    /// the allocation of a message or of a copy of a history fails; for Refer only if the buffer
    /// is full, and never for Pin, Unpin, Put, Victim, Restart and Horizon.
    #[error(transparent)]
    Node(NodeFault),
    /// 14: no replica has the number.
    #[error("NoSuchReplica")]
    NoSuchReplica,
    /// 15: the replica has no worker of the number.
    #[error("NoSuchWorker")]
    NoSuchWorker,
    /// 16: no message has the number.
    #[error("NoSuchFrame")]
    NoSuchFrame,
}

impl WorldFault {
    /// The number of the refusal: 1, or 4 to 16.
    pub fn code(self) -> u8
        ensures { result ≡ code_of self }
    {
        match self {
            WorldFault::Node(why) => why.code(),
            WorldFault::NoSuchReplica => 14,
            WorldFault::NoSuchWorker => 15,
            WorldFault::NoSuchFrame => 16,
        }
    }

    /// Its name, as the variant is written; for `Node`, the name of the node's fault.
    pub fn name(self) -> &'static str
        ensures { result.now ≡ name_of self }
    {
        match self {
            WorldFault::Node(why) => why.name(),
            WorldFault::NoSuchReplica => "NoSuchReplica",
            WorldFault::NoSuchWorker => "NoSuchWorker",
            WorldFault::NoSuchFrame => "NoSuchFrame",
        }
    }
}

impl From<NodeFault> for WorldFault {
    ghost from_gives = { λ why e. e ≡ fault.Node why };

    fn from(why: NodeFault) -> WorldFault {
        WorldFault::Node(why)
    }
}

impl From<AllocError> for WorldFault {
    ghost from_gives = { λ _ e. e ≡ fault.Node node.Memory };

    fn from(_error: AllocError) -> WorldFault {
        WorldFault::Node(NodeFault::Memory)
    }
}

/// Why a world was not made.
#[derive(Clone, Copy, Debug, PartialEq, Eq, Error)]
pub enum BadWorld {
    /// 1: an allocation failed.
    #[error("Memory")]
    Memory,
    /// 3: the page size of a device is not that of the setup.
    #[error("SizeDiffers")]
    SizeDiffers,
    /// 17: the number of device lists is not the number of replicas.
    #[error("DevicesDiffer")]
    DevicesDiffer,
}

impl BadWorld {
    /// The number of the refusal: 1, 3 or 17.
    pub fn code(self) -> u8
        ensures { result ≡ bad_code_of self }
    {
        match self {
            BadWorld::Memory => 1,
            BadWorld::SizeDiffers => 3,
            BadWorld::DevicesDiffer => 17,
        }
    }

    /// Its name, as the variant is written.
    pub fn name(self) -> &'static str
        ensures { result.now ≡ bad_name_of self }
    {
        match self {
            BadWorld::Memory => "Memory",
            BadWorld::SizeDiffers => "SizeDiffers",
            BadWorld::DevicesDiffer => "DevicesDiffer",
        }
    }
}

impl From<AllocError> for BadWorld {
    ghost from_gives = { λ _ e. e ≡ bad.Memory };

    fn from(_error: AllocError) -> BadWorld {
        BadWorld::Memory
    }
}

/// The answer to an event for the result of a node's call.
pub(crate) fn answer_of(made: Result<Answer, NodeFault>) -> Answer
    ensures { result ≡ answered made }
{
    match made {
        Ok(answer) => answer,
        Err(why) => Answer::Refused(WorldFault::Node(why)),
    }
}

impl Event {
    // The number of the replica that it names.
    pub(crate) fn replica(&self) -> u16
        ensures { result ≡ replica_of self.now }
    {
        match self {
            Event::Refer(i, _, _, _) => *i,
            Event::Flush(i, _) => *i,
            Event::Send(i, _, _) => *i,
            Event::Offer(i) => *i,
            Event::Deliver(j, _) => *j,
            Event::Pin(i, _) => *i,
            Event::Unpin(i, _) => *i,
            Event::Put(i, _, _, _) => *i,
            Event::Get(i, _, _, _) => *i,
            Event::Victim(i) => *i,
            Event::Warm(i, _) => *i,
            Event::WarmStep(i) => *i,
            Event::Restart(i) => *i,
            Event::Horizon(i, _) => *i,
            Event::Show(i) => *i,
        }
    }

    // The number of the worker that it names.
    pub(crate) fn worker(&self) -> Option<u16>
        ensures { result ≡ worker_of self.now }
    {
        match self {
            Event::Refer(_, w, _, _) => Some(*w),
            Event::Flush(_, w) => Some(*w),
            _ => None,
        }
    }

    // The number of the message that it names.
    pub(crate) fn message(&self) -> Option<u64>
        ensures { result ≡ message_of self.now }
    {
        match self {
            Event::Deliver(_, k) => Some(*k),
            _ => None,
        }
    }
}
