//! Laws of shards. Each function changes nothing: its contract is a theorem, which
//! `specs/Laws.antt`, `specs/PartLaws.antt`, or `specs/VisitLaws.antt` states in full.
ghost use Rattle.warm_shards.specs.Laws.{FailuresStayInShard, FirstAreGiven};
ghost use Rattle.warm_shards.specs.Laws.{ShardVictimsAreFarthest, ShardsStand};
ghost use Rattle.warm_shards.specs.Laws.{StepsStayInShard, WholeIsOfGiven};
ghost use Rattle.warm_shards.specs.PartLaws.{BatchIsOfParts, DigestsAreGathered, GatheredIsWhole};
ghost use Rattle.warm_shards.specs.PartLaws.{HistoryIsOfParts, MessageIsOfParts, OneTakesIn};
ghost use Rattle.warm_shards.specs.VisitLaws.{GivingIsOneNode, ReadingIsOneNode};

/// Whatever references all shards together stand for, after a call of the whole they stand for
/// those with what the call gave: that of a batch, of a message, of a horizon. So they stand for
/// all references that reached the replica, as one node does.
pub fn whole_is_of_given()
    ensures { WholeIsOfGiven }
{}

/// After a refused batch or message all shards together stand for what they stood for, with the
/// references to pages of the first shards.
pub fn first_are_given()
    ensures { FirstAreGiven }
{}

/// Each shard stands for the references to its pages, of all for which the shards together stand,
/// and has the digests that the whole has of its buckets.
pub fn shards_stand()
    ensures { ShardsStand }
{}

/// A page that a call of a shard evicts, if it isn't a restart, is an unpinned resident page of
/// greatest backward 2-distance in its shard, over all references for which the shards together
/// stand.
pub fn victims_are_farthest()
    ensures { ShardVictimsAreFarthest }
{}

/// A node that knows pages of one shard alone, and has no other page in its pool, is so after any
/// call that brings no page of another shard. So nodes that were asked as shards alone can be
/// shards again: see [`crate::Shards::from_nodes`].
pub fn steps_stay_in_shard()
    ensures { StepsStayInShard }
{}

/// The same after a call of a device failed: as of a write-back that was refused.
pub fn failures_stay_in_shard()
    ensures { FailuresStayInShard }
{}

/// If one shard takes references in, all shards together do, whatever the others hold. So shards
/// may be called in any order, and by different threads.
pub fn one_takes_in()
    ensures { OneTakesIn }
{}

/// If each shard has had its part of a batch, a message or a history, all shards together have had
/// the whole: what one node has then.
pub fn parts_are_the_whole()
    ensures batch { BatchIsOfParts }
    ensures message { MessageIsOfParts }
    ensures history { HistoryIsOfParts }
{}

/// What is gathered shard by shard is that of all shards together: a history that joins those of
/// the shards, and a table with the digests of each.
pub fn gathered_is_whole()
    ensures history { GatheredIsWhole }
    ensures digests { DigestsAreGathered }
{}

/// A visit that nobody interrupts is the call of the one node that has all references of the
/// shards. It gives: a batch, a horizon, entries, a history. Or it reads: an offer, a request,
/// digests that are compared, a copy.
pub fn visit_is_one_node()
    ensures giving { GivingIsOneNode }
    ensures reading { ReadingIsOneNode }
{}
