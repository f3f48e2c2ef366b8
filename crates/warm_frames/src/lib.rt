//! The messages that replicas send each other, and their bytes, with an exact grammar: a *message*
//! is the value, and a *frame* is the bytes of one message.
//!
//! A [`Message`] carries entries of a history, the digests of all buckets, or the set of requested
//! buckets. `specs/Encoding.antt` says which bytes encode a message: each message has one encoding
//! in each format that can hold it. The encoding is injective, so no two messages share one, and
//! prefix-free: none begins another. `specs/Reading.antt` says how bytes are read, and which fault
//! is reported. A [`Decoder`] decodes messages from a stream of frames that is given in pieces:
//! `specs/Pieces.antt`. [`check_times`] refuses a message that speaks of times later than a limit.
//! `specs/Chunks.antt` says how a list of entries is cut into messages.
#![tactic(auto)]

mod decoder;
mod digests;
mod entries;
mod fault;
mod format;
pub mod laws;
pub mod layout;
mod limit;
mod message;
mod reading;
mod writing;

pub use decoder::{Decoder, Fed};
pub use digests::DigestTable;
pub use entries::EntryList;
pub use fault::FrameFault;
pub use layout::{DIGEST_SIZE, MAX_ENTRIES, MAX_ENTRY_SIZE};
pub use limit::{TimeFault, check_times};
pub use message::{BoxedMessage, Message, MessageList, decode, encode};
pub use writing::put_entry;

/// The specification's name for [`DigestTable`].
pub use digests::DigestTable as SumTable;

/// The specification's name for [`Message`].
pub use message::Message as Frame;

/// The specification's name for [`MessageList`].
pub use message::MessageList as FrameList;
