//! The messages of a visit, one after the other, and what else a driver asks of it that keeps it
//! between two calls.
ghost use Rattle.std.specs.Prelude.{◌≡◌, IfNone, IfSome, None, Some};
ghost use Rattle.warm_visits.specs.ShardNumbers.{IsShardCount};
ghost use Rattle.warm_visits.specs.VisitMessages.{final_message, first_message, idle_visit};
ghost use Rattle.warm_visits.specs.VisitMessages.{resumed, without_message};
ghost use Rattle.warm_visits.specs.Visits.{copy_of};

use crate::visit::{Visit, Work};
use warm_frames::Message;
use warm_history::History;
use warm_stamps::ReplicaId;

impl Visit {
    /// A visit that has nothing to do. Allocation-free.
    pub fn idle(id: ReplicaId, count: usize) -> Visit
        requires { IsShardCount count }
        ensures { result ≡ idle_visit id count }
    {
        Visit {
            id,
            count,
            time: 0,
            rising: count,
            shard: count,
            work: Work::Raise,
            kept: None,
            stopped: false,
        }
    }

    /// The number of the replica.
    pub fn id(&self) -> ReplicaId
        ensures { result ≡ self.now.id }
    {
        self.id
    }

    /// How many shards there are.
    pub fn count(&self) -> usize
        ensures value { result ≡ self.now.count }
        ensures valid { IsShardCount result }
    {
        self.count
    }

    /// The first message that waits, if one does. Allocation-free.
    pub fn first_message(&self) -> Option<&Message>
        ensures some { IfSome result (λ message. first_message self.now ≡ Some message.now) }
        ensures none { IfNone result (first_message self.now ≡ None) }
    {
        match &self.work {
            Work::Read(reading) => reading.first_message(),
            _ => None,
        }
    }

    /// The message that comes last, once no errand and no other message is left: the request behind
    /// an answer, or what the shards offer. Allocation-free.
    pub fn final_message(&self) -> Option<Message>
        ensures { result ≡ final_message self.now }
    {
        if self.rising < self.count {
            return None;
        }
        match &self.work {
            Work::Read(reading) => reading.final_message(),
            _ => None,
        }
    }

    /// Passes the first message; or, if there is none, the request. Allocation-free.
    pub fn pass_message(&mut self)
        ensures { self.new ≡ without_message self.old }
    {
        let Work::Read(reading) = &mut self.work else {
            return;
        };
        reading.pass_message();
    }

    /// The history that was copied so far, of a visit that copies. Allocation-free.
    pub fn history(&self) -> Option<&History>
        ensures some { IfSome result (λ h. copy_of self.now.made ≡ Some h.now) }
        ensures none { IfNone result (copy_of self.now.made ≡ None) }
    {
        match &self.work {
            Work::Read(reading) => reading.history(),
            _ => None,
        }
    }

    /// Goes on with the errand that was refused. Allocation-free.
    pub fn resume(&mut self)
        ensures { self.new ≡ resumed self.old }
    {
        self.stopped = false;
    }
}
