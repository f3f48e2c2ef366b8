//! Calls and replies in heap boxes.
ghost use Rattle.std.specs.Prelude.{◌≡◌, IfOk};

use std::alloc::{AllocError, Global};
use std::marker::Model;
use warm_gossip::{Call, Reply};

/// A call in a heap box, with a box for its reply: two pointers, whereas a [`Call`] and a [`Reply`]
/// each have space for a message's table of digests, some 2,080 bytes. Contracts see the call.
#[derive(Drop)]
pub struct BoxedCall {
    call: Box<Call>,
    memory: ReplyMemory,
}

impl Model for BoxedCall {
    ghost use Rattle.warm_gossip.specs.declared.call.Call.{Call};

    ghost Value = { Call };

    ghost view = { λ boxed. boxed.call.value };
}

impl BoxedCall {
    /// The call, with memory for its reply: making the call, and storing its reply, allocate
    /// nothing further for the boxes.
    ///
    /// `AllocError` occurs only if the allocation for the call or for the reply fails. The call
    /// is then dropped.
    pub fn new(alloc: Global, call: Call) -> Result<BoxedCall, AllocError>
        ensures { IfOk result (λ boxed. boxed ≡ call) }
    {
        let call = Box::new(alloc, call)?;
        let memory = ReplyMemory {
            reply: Box::new(alloc, Reply::Done)?,
        };
        Ok(BoxedCall { call, memory })
    }

    /// The call, and the memory for its reply. Allocation-free; the call's box is freed.
    pub(crate) fn into_parts(self) -> (Call, ReplyMemory)
        ensures { result.0 ≡ self }
    {
        let BoxedCall { call, memory } = self;
        (Box::into_inner(call), memory)
    }
}

// Memory for a reply. Its contents mean nothing until a reply is stored.
#[derive(Drop)]
pub(crate) struct ReplyMemory {
    reply: Box<Reply>,
}

impl ReplyMemory {
    // The reply in this memory. Allocation-free.
    pub(crate) fn with(self, reply: Reply) -> BoxedReply
        ensures { result ≡ reply }
    {
        let mut boxed = self.reply;
        *boxed = reply;
        BoxedReply { reply: boxed }
    }
}

/// A reply in a heap box: a pointer, whereas a [`Reply`] has space for a message's table of
/// digests. Contracts see the reply.
#[derive(Drop)]
pub struct BoxedReply {
    reply: Box<Reply>,
}

impl Model for BoxedReply {
    ghost use Rattle.warm_gossip.specs.declared.call.Reply.{Reply};

    ghost Value = { Reply };

    ghost view = { λ boxed. boxed.reply.value };
}

impl BoxedReply {
    /// The reply. Allocation-free.
    pub fn as_reply(&self) -> &Reply
        ensures { result.now ≡ self.now }
    {
        &self.reply
    }

    /// The reply. Allocation-free; the box is freed.
    pub fn into_reply(self) -> Reply
        ensures { result ≡ self }
    {
        Box::into_inner(self.reply)
    }
}
