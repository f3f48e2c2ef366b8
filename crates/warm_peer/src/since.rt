//! What a peer sends to whom it sent before: what is new in a bucket since a time.
ghost use Rattle.std.specs.Prelude.{◌≡◌, ◌↔◌, IfOk, IsTrue};
ghost use Rattle.warm_peer.specs.Since.{BringsHeld, HasMoreSince, sent_since};

use crate::peer::Peer;
use std::alloc::AllocError;
use warm_frames::{EntryList, MAX_ENTRIES, Message};
use warm_history::Portion;
use warm_stamps::{Bucket, PageId};

/// A message of the first entries of a bucket that a peer sends, and whether more of them follow.
/// If more follow, the page of the message's last entry is the one after which to go on.
#[derive(Debug, Drop)]
pub struct SentPortion {
    /// The message, of entries.
    pub message: Message,
    /// Whether more follow.
    pub more: bool,
}

impl Peer {
    /// A message of the first entries of a bucket, up to MAX_ENTRIES, of those whose page is
    /// greater than `after` and whose latest stamp is not before the time `since`; and whether more
    /// of these follow. It is for a replica that publishes its history one way, to others that do
    /// not answer: of each bucket it sends what is new since it last sent it, and at `since` 0 all.
    /// An entry has both its stamps, even if the second latest is before `since`. The times are
    /// those of stamps, and not of when they were absorbed: if references come late, `since` is
    /// that much earlier.
    ///
    /// Who receives such messages of all buckets, each until no more follow, and had all references
    /// of this history from before `since`, has all that it holds
    /// ([`warm_history::laws::since_brings_all`]). To the receiver they are messages of entries as
    /// [`Peer::send`] gives them.
    ///
    /// It costs a look-up, and a step for each entry of the bucket from there on, up to the first
    /// such entry that does not fit in.
    ///
    /// # Errors
    /// `AllocError`: an allocation failed.
    pub fn send_since(
        &self,
        bucket: Bucket,
        since: u64,
        after: Option<PageId>,
    ) -> Result<SentPortion, AllocError>
        ensures sent { IfOk result (λ sent. sent.message
            ≡ sent_since self.now.id self.now.history bucket since after) }
        ensures more { IfOk result (λ sent. IsTrue sent.more
            ↔ HasMoreSince self.now.history bucket since after) }
        ensures held { IfOk result (λ sent. BringsHeld self.now.history sent.message) }
    {
        let history = self.history.history();
        let portion = history.entries_since(bucket, since, after, MAX_ENTRIES)?;
        let Portion { entries, more } = portion;
        let message = Message::Entries {
            sender: self.id,
            horizon: history.horizon(),
            entries: EntryList::holding(entries),
        };
        Ok(SentPortion { message, more })
    }
}
