//! The allocation-free calls of posts and of a channel's mail.

use crossbeam_channel::{Receiver, unbounded};
use std::alloc::Global;
use std::io::Print;
use std::sync::Wait;
use test_kit::cases::{Ended, Met, takes_none};
use warm_replica::{Mail, MailIter, MemPost, Outbox, Outboxes, Post};
use warm_stamps::{ByteList, ReplicaId};

// A post that has taken bytes for replica 9, an outbox of that replica, and its mail.
#[derive(Drop)]
pub(crate) struct Posts {
    taken: MemPost,
    boxes: Vec<Outbox>,
    mail: Receiver<Mail>,
}

impl Posts {
    pub(crate) fn new(alloc: Global) -> Result<Posts, Ended> {
        let Ok(replica) = ReplicaId::new(9) else {
            return Err(Ended::Broken);
        };
        let mut bytes = Vec::new(alloc);
        bytes.extend_from_slice(b"warm")?;
        let mut taken = MemPost::new(alloc);
        if taken.post(replica, ByteList::of(bytes)).is_err() {
            return Err(Ended::NoMemory);
        }
        let (sender, mail) = unbounded(alloc)?;
        let mut boxes = Vec::with_capacity(alloc, 1)?;
        boxes.push_reserved(Outbox { replica, sender });
        Ok(Posts { taken, boxes, mail })
    }

    pub(crate) fn rows<P: Print, R: Wait>(
        self,
        rt: &P,
        met: &mut Met,
        waits: &R,
        alloc: Global,
    ) -> Result<(), Ended> {
        let Posts { taken, boxes, mail } = self;
        takes_none(rt, "MemPost::new")?;
        let fresh = MemPost::new(alloc);
        takes_none(rt, "given of a new post")?;
        met.holds(fresh.given().is_empty(), "a new post has taken something")?;
        takes_none(rt, "given")?;
        met.holds(taken.given().len() == 1, "a post has lost its bytes")?;
        takes_none(rt, "Outboxes::new")?;
        let _outboxes = Outboxes::new(waits, boxes);
        takes_none(rt, "MailIter::new")?;
        let mut items = MailIter::new(waits, mail, 0);
        met.holds(items.next().is_none(), "more mail comes than was asked for")
    }
}
