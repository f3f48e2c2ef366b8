//! The digests that shards offer, gathered into one table, and compared with others that wait.
ghost use Rattle.std.specs.Prelude.{◌≡◌, ◌<◌, ℕ, [], IfOk};
ghost use Rattle.warm_visits.specs.VisitMessages.{final_message};
ghost use Rattle.warm_visits.specs.VisitReads.{AddsOffer, GathersOne, IsPageOrNone, gathered_in};
ghost use Rattle.warm_visits.specs.VisitReads.{gathering_visit, nothing_gathered, sending_visit};
ghost use Rattle.warm_visits.specs.Visits.{ComparesOffers, VisitState, compares};

use crate::digests::fill_digests;
use crate::sending::{Sending, Wanted};
use std::alloc::{AllocError, Global};
use std::marker::Model;
use warm_devices::PageDevice;
use warm_digest::differing;
use warm_frames::{DIGEST_SIZE, DigestTable, Message};
use warm_gossip::{Node, NodeFault};
use warm_stamps::{BUCKETS, ReplicaId};

// What the shards before one have offered.
#[derive(Drop)]
pub(crate) struct Gathering {
    // The shard that offers next.
    pub(crate) shard: usize,
    // The latest horizon.
    pub(crate) horizon: u64,
    pub(crate) digests: [[u8; DIGEST_SIZE]; BUCKETS as usize],
    // The digests with which these are compared, if any are.
    pub(crate) waiting: Option<DigestTable>,
}

impl Gathering {
    /// The next shard offers.
    ///
    /// `Memory` occurs only if an allocation fails.
    pub(crate) fn add<D: PageDevice>(
        &mut self,
        node: &mut Node<D>,
        count: usize,
    ) -> Result<(), NodeFault>
        requires { self.old.shard < count }
        ensures { AddsOffer count node.old self.old result node.new self.new }
    {
        let offered = node.offer()?;
        let Message::Digest {
            horizon,
            digests: table,
            ..
        } = offered
        else {
            unreachable!()
        };
        fill_digests(&mut self.digests, &table, count, self.shard);
        self.horizon = self.horizon.max(horizon);
        self.shard += 1;
        Ok(())
    }

    /// What the shards offer, if all have and nothing is compared.
    pub(crate) fn offer(&self, id: ReplicaId, count: usize) -> Option<Message>
        ensures { result ≡ final_message (gathering_visit id count self.now) }
    {
        if self.shard < count {
            return None;
        }
        if let Some(_digests) = self.waiting {
            return None;
        }
        Some(Message::Digest {
            sender: id,
            horizon: self.horizon,
            digests: DigestTable::of(self.digests),
        })
    }
}

// The answer to digests, when all shards have offered theirs: the buckets that differ are sent, and
// then a request for them comes last. Allocation-free.
fn compared(alloc: Global, gathering: &Gathering, digests: &DigestTable) -> Sending
    ensures compared { (v : VisitState) → ComparesOffers [] (compares digests.now)
        (gathered_in gathering.now) v (sending_visit v.id v.count result) }
    ensures page { IsPageOrNone result.after }
{
    let request = differing(digests, &DigestTable::of(gathering.digests));
    // The request is a number of 64 bits.
    let _bits = request.bits();
    if request.is_empty() {
        return Sending::of(alloc, request, None);
    }
    let want = Wanted {
        horizon: gathering.horizon,
        request,
    };
    Sending::of(alloc, request, Some(want))
}

// The next shard offers. What is sent next is returned, if it was the last one and digests wait.
//
// `Memory` occurs only if an allocation fails.
fn gather<D: PageDevice>(
    alloc: Global,
    count: usize,
    gathering: &mut Gathering,
    node: &mut Node<D>,
) -> Result<Option<Sending>, NodeFault>
    requires { gathering.old.shard < count }
    ensures { (id : ℕ) → GathersOne id count gathering.old node.old result gathering.new node.new }
{
    gathering.add(node, count)?;
    if gathering.shard < count {
        return Ok(None);
    }
    let Some(digests) = gathering.waiting else {
        return Ok(None);
    };
    let sending = compared(alloc, gathering, &digests);
    Ok(Some(sending))
}

/// What shards have offered, in a heap box: both tables of digests have 4 KB, and a visit goes by
/// value from shard to shard. Contracts see what is in the box.
#[derive(Drop)]
pub(crate) struct BoxedGathering {
    inside: Box<Gathering>,
}

impl Model for BoxedGathering {
    ghost use Rattle.warm_visits.specs.declared.gathering.Gathering.{Gathering};

    ghost Value = { Gathering };

    ghost view = { λ boxed. boxed.inside.value };
}

impl BoxedGathering {
    /// Before any shard has offered.
    ///
    /// `AllocError` occurs only if the allocation fails.
    pub(crate) fn empty(
        alloc: Global,
        waiting: Option<DigestTable>,
    ) -> Result<BoxedGathering, AllocError>
        ensures { IfOk result (λ boxed. boxed ≡ nothing_gathered waiting) }
    {
        let gathering = Gathering {
            shard: 0,
            horizon: 0,
            digests: [[0; DIGEST_SIZE]; BUCKETS as usize],
            waiting,
        };
        let inside = Box::new(alloc, gathering)?;
        Ok(BoxedGathering { inside })
    }

    /// What is in the box.
    pub(crate) fn as_gathering(&self) -> &Gathering
        ensures { result.now ≡ self.now }
    {
        &self.inside
    }

    /// The next shard offers. What is sent next is returned, if it was the last one and digests
    /// wait.
    ///
    /// `Memory` occurs only if an allocation fails.
    pub(crate) fn gather<D: PageDevice>(
        &mut self,
        alloc: Global,
        count: usize,
        node: &mut Node<D>,
    ) -> Result<Option<Sending>, NodeFault>
        requires { self.old.shard < count }
        ensures { (id : ℕ) → GathersOne id count self.old node.old result self.new node.new }
    {
        gather(alloc, count, &mut self.inside, node)
    }
}
