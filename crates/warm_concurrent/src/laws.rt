//! Laws of shared shards. Each function changes nothing: its contract is a theorem, which
//! `specs/Laws.antt` states in full.
ghost use Rattle.warm_concurrent.specs.Given.{SharedIsOfGiven, SharedVictims, ThreadsGive};
ghost use Rattle.warm_concurrent.specs.Given.{TwoThreadsAreHeld};
ghost use Rattle.warm_shard_machine.specs.Laws.{ShardIsOfGiven};
ghost use Rattle.warm_concurrent.specs.Laws.{OnlySeesMore, ShardsHoldTheirPages};
ghost use Rattle.warm_concurrent.specs.Laws.{TogetherAreOfGiven};
ghost use Rattle.warm_concurrent.specs.Pins.{PinsAreCounted, PinsComeBack, TwoThreadsUnpin};
ghost use Rattle.warm_shard_machine.specs.Pins.{PinsAreGiven};
ghost use Rattle.warm_concurrent.specs.Rights.{NodesComeBack};
ghost use Rattle.std.specs.Thread.{IsSend, IsSync};
ghost use Rattle.warm_concurrent.specs.contracts.shared.Attached.{the_row as attached_row};
ghost use Rattle.warm_concurrent.specs.contracts.shared.SharedShards.{the_row as shared_row};

use warm_devices::PageDevice;
pub use warm_shard_machine::laws::{calls_are_a_nodes, errands_are_calls, told_devices_are_one};

/// The headline. Once the shards are closed, the nodes together hold the two latest stamps of every
/// page among all references that any call of any thread gave any shard, and those with which the
/// shards opened, not older than the latest horizon that any call gave. So of each shard: in a state
/// that a legal list of its calls reaches, it has the history of the references that these gave it.
pub fn shards_are_of_given()
    ensures shard { ShardIsOfGiven }
    ensures together { TogetherAreOfGiven }
    ensures closed { SharedIsOfGiven }
{}

/// What a thread's call gives the shards: just the references of the batch that it absorbs, just the
/// horizon that it raises, just both of the message that it receives, or of the history that it
/// joins. One that stops at a shard gives just the parts of the shards before. Any other call gives
/// nothing, and neither does one that a shard refuses. So two threads absorb a batch each, one is
/// detached into the other, which closes the shards: all nodes come back, and together stand for
/// what they opened with and both batches, and for nothing else.
pub fn threads_give()
    ensures given { ThreadsGive }
    ensures two { TwoThreadsAreHeld }
{}

/// The page that a shard names as its victim, and each that leaves it when a page is pinned, looked
/// at, changed or warmed up, is an unpinned resident page of greatest backward 2-distance, over all
/// references that the calls of all threads had given the shard until then, not older than its
/// horizon. This holds in every legal run of the shard's calls, and each call that a thread saw
/// answered is in such a run.
pub fn shared_victims_are_farthest()
    ensures { SharedVictims }
{}

/// A shard holds the pages of its buckets alone: it knows no other page, and no other is in its
/// pool. Shards that are to be shared are so, a shard that opened so stays so whatever it is
/// called, and so is the node that is left of it once it is closed.
pub fn shards_hold_their_pages()
    ensures { ShardsHoldTheirPages }
{}

/// Whatever a thread calls, it has then seen of each shard all that it had seen, and maybe more. So
/// a thread that reads several shards sees nothing older than it had seen, shard by shard.
pub fn only_sees_more()
    ensures { OnlySeesMore }
{}

/// Whatever threads were attached, made calls and were detached: if one is left, it has the whole
/// right to close, and then `close` gives every node back. For a call leaves the right of its
/// thread, to attach halves it, and to detach adds that of the other.
pub fn all_nodes_come_back()
    ensures { NodesComeBack }
{}

/// The pins of a shard's pool are those with which it opened, one more for each pin (`Pin`,
/// `PinZeroed`, `PinFilled`) that it answered `Pinned`, and one less for each `Unpin` that it
/// answered `Done`, whichever threads made these calls. The count of a thread is that of its calls,
/// and of those of the threads that were detached into it. So if one thread is left and closes the
/// shards, their nodes together have the pins with which they opened, and as many as that thread
/// counts. [`crate::SharedShards::close`] refuses it unless it counts none. So two threads pin a
/// page each, each unpins what the other pinned, one is detached into the other, which closes the
/// shards: no page is pinned.
pub fn pins_are_counted()
    ensures shard { PinsAreGiven }
    ensures threads { PinsAreCounted }
    ensures closed { PinsComeBack }
    ensures two { TwoThreadsUnpin }
{}

/// If devices may go from one thread to another, threads may share shards, and what a thread has of
/// them may go to it.
pub fn shards_are_shared<D: PageDevice + Send>()
    ensures attached { IsSend (attached_row D.row D.PageDevice) }
    ensures shared { IsSync (shared_row D.row D.PageDevice) }
{}
