//! The call of an open handle that writes frames of entries, and how any frame is written.
ghost use Rattle.std.specs.Prelude.{◌≡◌, ◌≤◌, length};
ghost use Rattle.warm_frames.specs.Limits.{entries_in};
ghost use Rattle.warm_c_calls.specs.Calls.{PutsFrame};
ghost use Rattle.warm_c_calls.specs.Since.{SendsSince, last_in, send_buffers};
ghost use Rattle.warm_c_base.specs.Values.{with_start};

use crate::open_node::OpenNode;
use std::alloc::Global;
use warm_c_base::{Refusal, WarmPage, c_bool};
use warm_frames::{Message, encode};
use warm_stamps::{Bucket, PageId};

// Puts bytes at the start of a buffer.
fn put_bytes(bytes: &[u8], into: &mut [u8])
    requires { length bytes.now ≤ length into.old }
    ensures { into.new ≡ with_start bytes.now into.old }
{
    into[..bytes.len()].copy_from_slice(bytes);
}

// Puts the frame of a message at the start of a buffer, and writes its length, even if it does not
// fit.
pub(crate) fn put_frame(
    alloc: Global,
    message: &Message,
    frame: &mut [u8],
    len: &mut usize,
) -> Result<(), Refusal>
    ensures { PutsFrame message.now frame.old len.old frame.new len.new result }
{
    let bytes = encode(alloc, message)?;
    *len = bytes.len();
    if frame.len() < bytes.len() {
        return Err(Refusal::BufferTooSmall);
    }
    put_bytes(&bytes, frame);
    Ok(())
}

// How many entries a message has.
pub(crate) fn entry_count(message: &Message) -> usize
    ensures { result ≡ length (entries_in message.now) }
{
    let Message::Entries { entries, .. } = message else {
        return 0;
    };
    entries.as_slice().len()
}

// Writes the page of the last entry of a message, if it has one.
fn put_last(message: &Message, last: &mut WarmPage)
    ensures { last.new ≡ last_in message.now last.old }
{
    let Message::Entries { entries, .. } = message else {
        return;
    };
    if let Some(entry) = entries.as_slice().last() {
        *last = WarmPage::of(entry.page);
    }
}

impl OpenNode {
    /// Calls [`warm_gossip::Node::send_since`] and writes the frame of its message, its length, how
    /// many entries it has, whether more follow, and the page of the last one.
    ///
    /// # Errors
    /// The buffer, `entries`, `more` and `last` are unchanged.
    /// - `BadBucket`: the bucket's number is not valid.
    /// - `Node`, with `Memory`: an allocation failed.
    /// - `BufferTooSmall`: the frame does not fit; its length is written.
    pub fn send_since(
        &mut self,
        alloc: Global,
        bucket: u8,
        since: u64,
        after: Option<PageId>,
        frame: &mut [u8],
        len: &mut usize,
        entries: &mut usize,
        more: &mut u8,
        last: &mut WarmPage,
    ) -> Result<(), Refusal>
        ensures { SendsSince bucket since after
            (send_buffers frame.old len.old entries.old more.old last.old)
            (send_buffers frame.new len.new entries.new more.new last.new)
            self.old result self.new }
    {
        let Some(bucket) = Bucket::new(bucket) else {
            return Err(Refusal::BadBucket);
        };
        let sent = self.node.send_since(bucket, since, after)?;
        if let Err(why) = put_frame(alloc, &sent.message, frame, len) {
            return Err(why);
        }
        *entries = entry_count(&sent.message);
        *more = c_bool(sent.more);
        put_last(&sent.message, last);
        Ok(())
    }
}
