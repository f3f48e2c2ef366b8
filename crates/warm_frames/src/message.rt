//! Messages, and their encoding as frames.
ghost use Rattle.std.specs.Prelude.{◌≡◌, ◌⊎◌, IfOk, Err};
ghost use Rattle.warm_frames.specs.Encoding.{encoding, Encodes};
ghost use Rattle.warm_frames.specs.Limits.{horizon_in};
ghost use Rattle.warm_frames.specs.Reading.{GivesReading, FindsEncoded, read_frame, reserved_by};

use crate::digests::DigestTable;
use crate::entries::EntryList;
use crate::fault::FrameFault;
use crate::reading::message_in;
use crate::writing::{digest_text, entries_text, want_text};
use std::alloc::{AllocError, Global};
use std::marker::Model;
use warm_stamps::{BucketSet, Items, ReplicaId};

/// What one replica sends another. Its bytes are a *frame*: [`encode`] writes them, and [`decode`]
/// reads them.
#[derive(Debug, Drop)]
pub enum Message {
    /// Entries of the sender's history.
    Entries {
        /// The sending replica.
        sender: ReplicaId,
        /// The sender's horizon: the time before which it forgot stamps.
        horizon: u64,
        /// The entries, at most [`crate::MAX_ENTRIES`].
        entries: EntryList,
    },
    /// The digests of all buckets of the sender's history.
    Digest {
        /// The sending replica.
        sender: ReplicaId,
        /// The sender's horizon: the time before which it forgot stamps.
        horizon: u64,
        /// The digest of each bucket.
        digests: DigestTable,
    },
    /// A request for the entries of some buckets.
    Want {
        /// The sending replica.
        sender: ReplicaId,
        /// The sender's horizon: the time before which it forgot stamps.
        horizon: u64,
        /// The buckets whose entries are requested.
        request: BucketSet,
    },
}

impl Message {
    /// Returns the horizon of its sender, which messages of all three kinds have. Allocation-free.
    pub fn horizon(&self) -> u64
        ensures { result ≡ horizon_in self.now }
    {
        match self {
            Message::Entries { horizon, .. } => *horizon,
            Message::Digest { horizon, .. } => *horizon,
            Message::Want { horizon, .. } => *horizon,
        }
    }
}

/// A list of messages, in the order in which they are sent. Contracts see the list.
pub type MessageList = Items<Message>;

/// Encodes the message as a frame of the format `L2G2`. `AllocError` occurs only if the allocation
/// of the bytes fails.
pub fn encode(alloc: Global, message: &Message) -> Result<Vec<u8>, AllocError>
    // The bytes written encode the message, so `decode` returns it.
    ensures encodes { IfOk result (λ bytes. Encodes bytes.items message.now) }
    // They are this encoding, whichever others a reader may accept.
    ensures exact { IfOk result (λ bytes. bytes.items ≡ encoding message.now) }
{
    match message {
        Message::Entries {
            sender,
            horizon,
            entries,
        } => entries_text(alloc, *sender, *horizon, entries),
        Message::Digest {
            sender,
            horizon,
            digests,
        } => digest_text(alloc, *sender, *horizon, digests),
        Message::Want {
            sender,
            horizon,
            request,
        } => want_text(alloc, *sender, *horizon, *request),
    }
}

/// Decodes the message that the bytes encode, all of them: a frame of the format `L2G2`, or of the
/// older `L2G1`, which is read with horizon 0.
///
/// Refused by the first fault from left to right:
/// - `Truncated`: fewer than 4 bytes, then `BadMagic`: neither `L2G2` nor `L2G1`;
/// - `Truncated`: no byte for the kind, then `BadKind`: not 1, 2 or 3;
/// - `Truncated`: fewer than 2 bytes for the sender, then `BadSender`: not a valid replica number;
/// - in `L2G2` `Truncated`: fewer than 8 bytes for the horizon;
/// - `Truncated`: fewer than 4 bytes for the length, then `BadLength`: not valid for the kind.
///   Entries have 4 to 31,004 bytes (a count, and 31 for each of the most; in `L2G1` 4 to 27,004,
///   and 27), digests 2048 and a request 8;
/// - `Truncated`: fewer bytes follow than the length says, then `BadLength`: more;
/// - `BadCount`: more entries than [`crate::MAX_ENTRIES`];
/// - `Memory`: the allocation of the entries failed. There is one allocation, and only if there are
///   entries;
/// - for each entry `BadLength`: fewer than 10 bytes for the page (6 in `L2G1`), `BadOrder`: a page
///   not greater than the one before, `BadLength`: no byte for the tag, `BadTag`: neither 1 nor 2,
///   `BadLength`: fewer than 10 or 20 bytes for the stamps, `BadStamp`: not a valid replica number,
///   or a second stamp that isn't older;
/// - `BadLength`: bytes after the last entry.
pub fn decode(alloc: Global, bytes: &[u8]) -> Result<Message, FrameFault>
    // The bytes encode the decoded message.
    ensures found { IfOk result (λ message. Encodes bytes.now message) }
    // A message that the bytes encode is decoded, unless an allocation fails.
    ensures only { FindsEncoded bytes.now result }
    // The result is that of `read_frame`, so a fault is the first one; or an allocation failed.
    ensures first { GivesReading result (read_frame bytes.now) (reserved_by bytes.now) }
{
    message_in(alloc, bytes)
}

/// A message in a heap box: it is one pointer, whereas a [`Message`] has space for a table of
/// digests, some 2,080 bytes. Contracts see the message.
#[derive(Debug, Drop)]
pub struct BoxedMessage {
    message: Box<Message>,
}

impl Model for BoxedMessage {
    ghost use Rattle.warm_frames.specs.declared.message.Message.{Message};

    ghost Value = { Message };

    ghost view = { λ boxed. boxed.message.value };
}

impl BoxedMessage {
    /// Puts the message into a box.
    ///
    /// `AllocError` occurs only if the allocation of the box fails. The message is then dropped.
    pub fn new(alloc: Global, message: Message) -> Result<BoxedMessage, AllocError>
        ensures { IfOk result (λ boxed. boxed ≡ message) }
    {
        let message = Box::new(alloc, message)?;
        Ok(BoxedMessage { message })
    }

    /// Borrows the message. Allocation-free.
    pub fn as_message(&self) -> &Message
        ensures { result.now ≡ self.now }
    {
        &self.message
    }

    /// Takes the message out, and frees the box. Allocation-free.
    pub fn into_message(self) -> Message
        ensures { result ≡ self }
    {
        Box::into_inner(self.message)
    }
}

/// As [`decode`]; a failed allocation of the box is `Memory` too.
pub(crate) fn decode_boxed(alloc: Global, bytes: &[u8]) -> Result<BoxedMessage, FrameFault>
    ensures found { IfOk result (λ message. Encodes bytes.now message) }
    ensures reads { (result ≡ read_frame bytes.now) ⊎ (result ≡ Err FrameFault.Memory) }
{
    let message = decode(alloc, bytes)?;
    let boxed = BoxedMessage::new(alloc, message)?;
    Ok(boxed)
}
