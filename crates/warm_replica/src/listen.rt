//! A loop over mail.
ghost use Rattle.std.specs.Prelude.{◌≡◌, ℕ, ◌≤◌, ◌<◌, ◌^◌, ◌∷◌, [], List, length, IfSome};
ghost use Rattle.warm_replica.specs.Mails.{PostsTo, HeardBy, Took, sender_of};
ghost use Rattle.warm_replica.specs.declared.mail.Mail.{Mail};
ghost use Rattle.warm_replica.specs.declared.mail.Mail.TheVariants.{Bytes};

use crate::mail::Mail;
use crate::post::Post;
use crate::report::{MailReport, NOTHING, REFUSED};
use crate::worker::Worker;
use std::alloc::Global;
use std::sync::Wait;
use warm_frames::{Message, decode, encode};
use warm_gossip::{Call, Reply};
use warm_stamps::{ByteList, ReplicaId};
use warm_turn::{Machine, Turn};

// The sender of the message.
fn sender_of(message: &Message) -> ReplicaId
    ensures { result ≡ sender_of message.now }
{
    match message {
        Message::Entries { sender, .. } => *sender,
        Message::Digest { sender, .. } => *sender,
        Message::Want { sender, .. } => *sender,
    }
}

// Posts one message, and counts it if it is lost.
fn post_one<P: Post>(alloc: Global, post: &mut P, to: ReplicaId, message: &Message) -> u64
    ensures posted { PostsTo P.keeps P.given to (message.now ∷ []) post.old result post.new }
    ensures bound { result ≤ 1 }
{
    let Ok(bytes) = encode(alloc, message) else {
        return 1;
    };
    match post.post(to, ByteList::of(bytes)) {
        Ok(()) => 0,
        Err(_) => 1,
    }
}

// Posts the messages in their order, and counts those that are lost.
fn post_all<P: Post>(alloc: Global, post: &mut P, to: ReplicaId, messages: &[Message]) -> u64
    ensures posted { PostsTo P.keeps P.given to messages.now post.old result post.new }
    ensures bound { result ≤ length messages.now }
{
    let mut lost = 0;
    for message in messages {
        lost += post_one(alloc, post, to, message);
    }
    lost
}

// Handles bytes: the message that they spell is received in a turn of its own, and its answers are
// posted.
fn hear<M: Machine<Call = Call, Reply = Reply>, P: Post, R: Wait>(
    rt: &R,
    alloc: Global,
    replica: &Turn<M>,
    worker: &mut Worker<M>,
    post: &mut P,
    bytes: ByteList,
) -> MailReport
    requires { worker.old.pass.table ≡ replica.now.table }
    ensures table { worker.new.pass.table ≡ worker.old.pass.table }
    ensures buffer { worker.new.buffer ≡ worker.old.buffer }
    ensures heard { HeardBy P.keeps P.given worker.old post.old (Bytes bytes ∷ []) result
        worker.new post.new }
    ensures bound { (result.joined ≤ 1) × (result.refused ≤ 1) × (result.lost < 2 ^ 64) }
{
    let Ok(message) = decode(alloc, bytes.as_slice()) else {
        return REFUSED;
    };
    let to = sender_of(&message);
    let Ok(reply) = worker.call(rt, replica, Call::Receive(message)) else {
        return REFUSED;
    };
    let Reply::Answers(messages) = reply else {
        return REFUSED;
    };
    let lost = post_all(alloc, post, to, messages.as_slice());
    MailReport {
        joined: 1,
        refused: 0,
        lost: u128::from(lost),
    }
}

// The next item of mail. The mail need not be proved to end.
fn next_item<I: Iterator<Item = Mail>>(mail: &mut I) -> Option<Mail>
    requires { I.can_next mail.old }
    ensures gives { I.next_gives mail.old result mail.new }
    ensures can { IfSome result (λ _. I.can_next mail.new) }
{
    mail.next()
}

/// Takes mail until it has taken `stops` Stops or `turns` items, or the mail ends; nothing if
/// `stops` or `turns` is 0. Bytes are decoded, the message is received by the replica in a turn of
/// its own, and the answers are posted to the message's sender. The worker's buffer is unchanged.
///
/// A faulty item does not end the loop. Counted as refused are bytes that spell no message, a
/// message that the replica refuses, a message whose decoding fails on an allocation, and a message
/// for which no ticket was left. Counted as lost are answers that the post does not take, or whose
/// encoding fails on an allocation. It may wait for the mail, for turns, and for the post.
pub fn mail_loop<
    M: Machine<Call = Call, Reply = Reply>,
    I: Iterator<Item = Mail>,
    P: Post,
    R: Wait,
>(
    rt: &R,
    alloc: Global,
    replica: &Turn<M>,
    worker: &mut Worker<M>,
    mut mail: I,
    post: &mut P,
    stops: u64,
    turns: u64,
) -> MailReport
    requires table { worker.old.pass.table ≡ replica.now.table }
    requires can { I.can_next mail }
    ensures table { worker.new.pass.table ≡ worker.old.pass.table }
    ensures buffer { worker.new.buffer ≡ worker.old.buffer }
    ensures heard { (items : List Mail) × Took I.next_gives mail stops turns items
        × HeardBy P.keeps P.given worker.old post.old items result worker.new post.new }
{
    let mut report = NOTHING;
    let mut missing = stops;
    for _turn in 0..turns {
        if missing == 0 {
            return report;
        }
        let Some(item) = next_item(&mut mail) else {
            return report;
        };
        match item {
            Mail::Stop => missing -= 1,
            Mail::Bytes(bytes) => report.add(hear(rt, alloc, replica, worker, post, bytes)),
        }
    }
    report
}
