//! Posts: the destinations of a replica's answers.
ghost use Rattle.std.specs.Prelude.{◌≡◌, ◌≢◌, [], ◌∷◌, ◌++◌, true, false};
ghost use Rattle.std.specs.Prelude.{IfErr, IsErr, OnErr, OnOk, Some, ◌==◌, position};
ghost use Rattle.std.specs.List.{All};
ghost use Rattle.warm_replica.specs.AddressedBytes.{Gained};

use crate::mail::Mail;
use crossbeam_channel::Sender;
use std::alloc::{AllocFailed, Global};
use std::marker::Model;
use std::sync::Wait;
use warm_stamps::{ByteList, ReplicaId};

/// A destination of bytes for replicas. A post declares whether it keeps what it takes; the
/// contracts of a mail loop state what a post that keeps has gained.
pub trait Post {
    ghost use Rattle.std.specs.Prelude.{List, Bool};
    ghost use Rattle.warm_replica.specs.AddressedBytes.{AddressedBytes};

    // Whether it keeps what it takes.
    ghost keeps: { Bool };

    // What it has taken and keeps, oldest first.
    ghost given: { Self → List AddressedBytes };

    /// Takes bytes for a replica, or gives them back and is unchanged.
    fn post(&mut self, to: ReplicaId, bytes: ByteList) -> Result<(), ByteList>
        ensures back { IfErr result (λ same. same ≡ bytes) }
        ensures taken { OnOk result
            (Gained keeps (given self.old) ((to, bytes) ∷ []) (given self.new)) }
        ensures same { OnErr result (Gained keeps (given self.old) [] (given self.new)) };
}

/// A post that keeps what it is given, in memory, for tests and for callers that carry the bytes
/// themselves. Contracts see the list, oldest first.
#[derive(Drop)]
pub struct MemPost {
    given: Vec<(ReplicaId, ByteList)>,
}

impl Model for MemPost {
    ghost use Rattle.std.specs.Prelude.{ℕ, List};

    ghost Value = { List (ℕ × List ℕ) };

    ghost view = { λ p. p.given.items };
}

impl MemPost {
    /// An empty post. Allocation-free.
    pub fn new(alloc: Global) -> MemPost
        ensures { result ≡ [] }
    {
        MemPost {
            given: Vec::new(alloc),
        }
    }

    /// The bytes that it has taken, oldest first, each with the replica that they are for.
    pub fn given(&self) -> &[(ReplicaId, ByteList)]
        ensures { result.now ≡ self.now }
    {
        self.given.as_slice()
    }
}

impl Post for MemPost {
    ghost use Rattle.std.specs.Prelude.{true};

    ghost keeps = { true };

    ghost given = { λ p. p };

    /// Refuses only on an allocation failure, and is then unchanged.
    fn post(&mut self, to: ReplicaId, bytes: ByteList) -> Result<(), ByteList> {
        match self.given.push((to, bytes)) {
            Ok(()) => Ok(()),
            Err(AllocFailed { value: (_, back) }) => Err(back),
        }
    }
}

/// The sending end of one replica's mail.
#[derive(Drop)]
pub struct Outbox {
    /// The replica.
    pub replica: ReplicaId,
    /// The sending end of its channel.
    pub sender: Sender<Mail>,
}

// The place of the first outbox of a replica's number.
fn place_of(boxes: &[Outbox], to: ReplicaId) -> Option<usize>
    ensures { result ≡ position (λ outbox. outbox.replica == to) boxes.now }
{
    boxes.iter().position(|outbox| outbox.replica == to)
}

// Sends bytes to an outbox, the first of the replica's number. It is the only call that sends: no
// clause can say what the other end of a channel receives. May wait.
fn send_at<R: Wait>(
    rt: &R,
    boxes: &[Outbox],
    at: usize,
    to: ReplicaId,
    bytes: ByteList,
) -> Result<(), ByteList>
    requires { position (λ outbox. outbox.replica == to) boxes.now ≡ Some at }
    ensures { IfErr result (λ same. same ≡ bytes) }
{
    match boxes[at].sender.send(rt, Mail::Bytes(bytes)) {
        Ok(()) => Ok(()),
        Err(failed) => {
            let Mail::Bytes(back) = failed.into_inner() else {
                unreachable!()
            };
            Err(back)
        }
    }
}

/// A post that sends to the first outbox of a replica's number, for replicas that listen in threads
/// of one program. It keeps nothing.
#[derive(Drop)]
pub struct Outboxes<'a, R: Wait> {
    rt: &'a R,
    boxes: Vec<Outbox>,
}

impl<'a, R: Wait> Outboxes<'a, R> {
    /// A post over these outboxes. Allocation-free.
    pub fn new(rt: &'a R, boxes: Vec<Outbox>) -> Outboxes<'a, R>
        ensures { result.boxes ≡ boxes }
    {
        Outboxes { rt, boxes }
    }
}

impl<'a, R: Wait> Post for Outboxes<'a, R> {
    ghost use Rattle.std.specs.Prelude.{false, []};

    ghost keeps = { false };

    ghost given = { λ _. [] };

    /// May wait. The bytes are given back if no outbox has that number, and if the channel
    /// has no receiver or is full.
    fn post(&mut self, to: ReplicaId, bytes: ByteList) -> Result<(), ByteList>
        ensures back { IfErr result (λ same. same ≡ bytes) }
        ensures taken { OnOk result (Gained false [] ((to, bytes) ∷ []) []) }
        ensures same { OnErr result (Gained false [] [] []) }
        ensures nobody { All (λ outbox. outbox.replica ≢ to) self.old.boxes.items
            → IsErr result }
    {
        match place_of(self.boxes.as_slice(), to) {
            Some(at) => send_at(self.rt, self.boxes.as_slice(), at, to, bytes),
            None => Err(bytes),
        }
    }
}
