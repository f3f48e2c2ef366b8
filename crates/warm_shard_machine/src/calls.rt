//! The calls of a shard and its replies. None has space for a message, of 2 KB: a message is in a
//! box.

use crate::told_visit::ToldVisit;
use boxcar::tag::Tag;
use warm_frames::BoxedMessage;
use warm_gossip::NodeFault;
use warm_pool::Slot;
use warm_stamps::{Bucket, ByteList, PageId, PageList};

/// A call of a shard: a call of its node, what an engine asks of a node beside the calls, or one
/// that pins a page, uses its bytes where they lie, and unpins it.
#[derive(Drop)]
pub enum ShardCall {
    /// Forget all stamps before this time.
    Raise(u64),
    /// Pin a page of the shard, and load it if it isn't resident.
    Pin(PageId),
    /// Pin a page of the shard, and fill it with zeros. It isn't read.
    PinZeroed(PageId),
    /// Pin a page of the shard, with bytes that are given in place of a read. A value of this call
    /// brings no bytes, and is refused: the visitor [`crate::Filling`] brings some.
    PinFilled {
        /// The page.
        page: PageId,
        /// The bytes, which exist here only in contracts.
        bytes: Tag,
    },
    /// Remove a pin from the slot's page.
    Unpin(Slot),
    /// Give bytes of the slot's page.
    Read {
        /// The slot, which must hold its page.
        slot: Slot,
        /// The first byte.
        at: usize,
        /// How many bytes.
        len: usize,
    },
    /// Write bytes into the slot's page.
    Write {
        /// The slot, which must hold its page.
        slot: Slot,
        /// The first byte.
        at: usize,
        /// The bytes.
        bytes: ByteList,
    },
    /// Name the page that would be evicted next.
    Victim,
    /// Load the hottest page of the shard that is not resident.
    WarmStep,
    /// Name the page that the next warm-up step would load.
    WarmNext,
    /// List this many of the hottest pages of the shard, or all if there are fewer.
    WarmList(usize),
    /// Give the first entries of a bucket, of those whose page is greater than `after`.
    Send {
        /// The bucket.
        bucket: Bucket,
        /// The page after which they begin, or `None` for the first of the bucket.
        after: Option<PageId>,
    },
    /// Give the first entries of a bucket, of those whose page is greater than `after` and whose
    /// latest stamp is not before `since`.
    SendSince {
        /// The bucket.
        bucket: Bucket,
        /// The time.
        since: u64,
        /// The page after which they begin, or `None` for the first of the bucket.
        after: Option<PageId>,
    },
    /// Write back all dirty pages of the shard. No device is flushed.
    WritePages,
    /// Write back at most this many dirty pages of the shard. No device is flushed.
    WriteSome(usize),
    /// Write back a page of the shard, if it is dirty. No device is flushed.
    WritePage(PageId),
    /// Write back the dirty pages of a device of the shard, and flush it.
    FlushDevice(u16),
    /// Write back the dirty pages of the shard, and flush its unflushed devices.
    WriteBack,
    /// Evict the shard's pages of a device from a number on, and do not write them.
    ForgetPages {
        /// The device.
        dev: u16,
        /// The number of the first page.
        from: u64,
    },
    /// Replace a device of the shard with another. The old one is given back. A value of
    /// this call brings no device, and is refused: the visitor [`crate::Replacing`] brings one.
    Retire {
        /// The device.
        dev: u16,
        /// The state of the other device, which exists here only in contracts.
        device: Tag,
    },
    /// Show the bytes of a page of the shard, and load it if it isn't resident.
    Look(PageId),
    /// Let the bytes of a page of the shard be changed, and load it if it isn't resident.
    Change(PageId),
    /// Let a visit of all shards run its next errand. A value of this call brings no visit, and is
    /// refused: the visitor [`crate::Entering`] brings one.
    Enter {
        /// How many shards the visit goes to.
        count: usize,
        /// The number of the shard of its next errand.
        number: usize,
        /// The visit before, which exists here only in contracts.
        visit: ToldVisit,
    },
}

/// A reply of a shard.
#[derive(Drop)]
pub enum ShardReply {
    /// The call succeeded.
    Done,
    /// The horizon afterwards.
    Kept(u64),
    /// How many pages of the shard are dirty.
    Dirty(usize),
    /// Whether the page was dirty.
    WasDirty(bool),
    /// The slot of the pinned page.
    Pinned(Slot),
    /// The requested bytes.
    Bytes(ByteList),
    /// The page that would be evicted, or loaded next, if there is one.
    Page(Option<PageId>),
    /// The page that was loaded, if any.
    Loaded(Option<PageId>),
    /// The hottest pages, hottest first.
    Pages(PageList),
    /// The requested message.
    Sent(BoxedMessage),
    /// A message of entries, and whether more of the requested entries follow.
    Portion {
        /// The message.
        message: BoxedMessage,
        /// Whether more follow.
        more: bool,
    },
    /// The device was replaced, and the old one given back.
    Replaced {
        /// The state of the old device, which exists here only in contracts.
        was: Tag,
    },
    /// The call brings a page, or a bucket, of another shard. Nothing has changed.
    Foreign,
    /// The node refused the call, or no memory was left for a box.
    Refused(NodeFault),
    /// The bytes of the page were shown.
    Looked {
        /// The slot of the page during the look. It is stale afterwards, unless others pin the
        /// page.
        slot: Slot,
        /// The bytes, which exist here only in contracts.
        bytes: Tag,
    },
    /// The bytes of the page were changed.
    Changed {
        /// The slot of the page during the change. It is stale afterwards, unless others pin the
        /// page.
        slot: Slot,
        /// The bytes before, which exist here only in contracts.
        before: Tag,
        /// The bytes afterwards, which exist here only in contracts.
        after: Tag,
    },
    /// The visit has run its errand, or the node had no memory for it. It is the visit afterwards,
    /// which exists here only in contracts.
    Entered(ToldVisit),
}
