//! Mail, and an iterator over a channel's.
ghost use Rattle.std.specs.Prelude.{◌≡◌, ◌+◌, IfSome};
ghost use Rattle.std.specs.Iterator.{at_most};
ghost use Rattle.warm_replica.specs.Mails.{GivesAtMost};

use crossbeam_channel::Receiver;
use std::sync::Wait;
use warm_stamps::ByteList;

/// One item of mail: what a channel carries to the replica whose mail it is.
#[derive(Drop)]
pub enum Mail {
    /// Bytes that should spell a message. If they spell none, the item is counted as refused.
    Bytes(ByteList),
    /// The sign that a sender is done. It says nothing about other senders.
    Stop,
}

/// The mail of a channel, in the order in which it is received: at most `left` items, and an end
/// if the channel is closed and empty. It waits for the next item. The items are unspecified.
#[derive(Drop)]
pub struct MailIter<'a, R: Wait> {
    receiver: Receiver<Mail>,
    rt: &'a R,
    left: u64,
}

impl<'a, R: Wait> MailIter<'a, R> {
    /// The mail of this channel, at most `most` items: none if that is 0. Allocation-free.
    pub fn new(rt: &'a R, receiver: Receiver<Mail>, most: u64) -> MailIter<'a, R>
        ensures left { ⟦<MailIter<'a, R> as Iterator>⟧.remaining result ≡ at_most most }
        ensures most { GivesAtMost ⟦<MailIter<'a, R> as Iterator>⟧.next_gives result most }
    {
        MailIter {
            receiver,
            rt,
            left: most,
        }
    }
}

impl<'a, R: Wait> Iterator for MailIter<'a, R> {
    type Item = Mail;

    ghost remaining = { λ s. at_most s.left };

    ghost next_gives = { λ s item t. IfSome item (λ _. s.left ≡ t.left + 1) };

    fn next(&mut self) -> Option<Mail> {
        if self.left == 0 {
            return None;
        }
        self.left -= 1;
        self.receiver.recv(self.rt).ok()
    }
}
