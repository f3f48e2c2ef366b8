//! The calls of a node and its replies.
use crate::fault::NodeFault;
use warm_frames::{Message, MessageList};
use warm_pool::Slot;
use warm_stamps::{Bucket, ByteList, PageId, PageList, RefList};

/// A call of a node.
#[derive(Drop)]
pub enum Call {
    /// Add these references to the history.
    Absorb(RefList),
    /// Give the first entries of a bucket, of those whose page is greater than `after`: up to
    /// MAX_ENTRIES, which is 1000.
    Send {
        /// The bucket.
        bucket: Bucket,
        /// The page after which they begin, or `None` for the first of the bucket.
        after: Option<PageId>,
    },
    /// Give the digests of all buckets.
    Offer,
    /// Receive a message: take its contents into the history, and answer it.
    Receive(Message),
    /// Forget all stamps before this time.
    Horizon(u64),
    /// Pin a page, and load it into a frame of the pool if it isn't resident. A pinned page is
    /// not evicted.
    ///
    /// A pin is not a reference: it changes no rank. A caller that pins also absorbs a reference.
    Pin(PageId),
    /// Remove a pin from the slot's page.
    Unpin(Slot),
    /// Give bytes of the slot's page.
    Read {
        /// The slot, which must hold its page.
        slot: Slot,
        /// The first byte.
        at: usize,
        /// How many bytes.
        len: usize,
    },
    /// Write bytes into the slot's page.
    Write {
        /// The slot, which must hold its page.
        slot: Slot,
        /// The first byte.
        at: usize,
        /// The bytes.
        bytes: ByteList,
    },
    /// Name the page that would be evicted next.
    Victim,
    /// List this many of the hottest pages, or all if there are fewer.
    WarmList(usize),
    /// Load the hottest page that is not resident, among as many of the hottest as the pool has
    /// frames.
    WarmStep,
    /// Write back all dirty pages and flush the devices, and then forget everything.
    Restart,
}

/// A reply of a node.
#[derive(Drop)]
pub enum Reply {
    /// The call succeeded.
    Done,
    /// The requested message.
    Sent(Message),
    /// The messages that answer the one received, in their order.
    Answers(MessageList),
    /// The horizon afterwards: the time before which stamps are forgotten.
    Kept(u64),
    /// The slot of the pinned page.
    Pinned(Slot),
    /// The requested bytes.
    Bytes(ByteList),
    /// The page that would be evicted, if there is one.
    Page(Option<PageId>),
    /// The hottest pages, hottest first.
    Pages(PageList),
    /// The page that was loaded, if any.
    Loaded(Option<PageId>),
    /// The call was refused; nothing that a caller sees has changed but counts of failures.
    Refused(NodeFault),
}
