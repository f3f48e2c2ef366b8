//! Laws of nodes: victims, warming up, lent bytes, batches of references, and the references that a
//! list of calls gave a node. Those of gossip are in [`warm_peer::laws`].
//!
//! Each function changes nothing. Its contract is a theorem, which the crates above cite and a
//! reader can look up: the files of `specs/` that the clauses name state it in full. Most are about
//! the definitions alone. Those that take a node give the premises of the others, and their
//! conclusions, for that node.
ghost use Rattle.warm_gossip.specs.Batches.{BatchesAreTaken};
ghost use Rattle.warm_gossip.specs.Brings.{CallsBringOnly};
ghost use Rattle.warm_gossip.specs.Lending.{LentBytesAreWritten};
ghost use Rattle.warm_gossip.specs.State.{node_view};
ghost use Rattle.warm_gossip.specs.Given.{HistoryIsOfGiven};
ghost use Rattle.warm_gossip.specs.Victims.{RepliesAreOverReferences, VictimsAreFarthest};
ghost use Rattle.warm_gossip.specs.WarmUps.{NodeWarmsUp, PagesDiffer, WarmStepKeepsHottest};
ghost use Rattle.warm_gossip.specs.WarmUps.{FilledPinIsWarmStep, NodeWarmUpLoads};

use crate::node::Node;
use warm_devices::PageDevice;

/// The victim that a node names, and the hottest pages that it lists, are those over all references
/// for which its history stands: the two stamps of each page that it keeps are enough.
pub fn replies_are_over_references()
    ensures { RepliesAreOverReferences }
{}

/// A page that a node names as its victim, and a page that is evicted by any call but
/// `Call::Restart`, is an unpinned resident page of greatest backward 2-distance, over all
/// references for which the node's history stands.
pub fn victims_are_farthest()
    ensures { VictimsAreFarthest }
{}

/// After a call with any reply, refused or not, each page in a frame was in a frame before, or is
/// the page that the call brings: that of a pin, or that which a warm-up step loads next.
pub fn calls_bring_only()
    ensures { CallsBringOnly }
{}

/// While no page is pinned, no page of the warm-up list, cut to the number of frames, is evicted by
/// a warm-up step, whatever its reply.
pub fn warm_step_keeps_hottest()
    ensures { WarmStepKeepsHottest }
{}

/// As many warm-up steps as the pool has frames, none refused and no page pinned before, load every
/// page of the warm-up list, cut to the number of frames, that a device has: no page of the list is
/// evicted for another.
pub fn warm_up_loads()
    ensures { NodeWarmUpLoads }
{}

/// A pin of the page that a warm-up step would load next, and then its unpin, are that step: so
/// if [`Node::pin_filled`] pins the page that [`Node::warm_next`] named, and the pin is removed,
/// with no call in between.
pub fn filled_pin_is_a_warm_step()
    ensures { FilledPinIsWarmStep }
{}

/// What is left in the bytes of a page that [`Node::bytes_mut`] lent is as after the call `Write`
/// of these bytes, from the start of the page on. The page is dirty.
pub fn lent_bytes_are_written()
    ensures { LentBytesAreWritten }
{}

/// Each state that a legal list of calls reaches has the history of the references that the node
/// was given: those of each `Absorb` and of each message of entries that it received, since its
/// last restart. The references of its opening state count too.
pub fn told_is_history()
    ensures { HistoryIsOfGiven }
{}

/// A node absorbs a batch of references, or refuses it because of an allocation failure, and gives
/// no other reply.
pub fn batches_are_taken()
    ensures { BatchesAreTaken }
{}

/// No page of a node's pool is in two frames. It costs nothing at run time.
pub fn node_pages_differ<D: PageDevice>(node: &Node<D>)
    ensures { PagesDiffer (node_view node.now).pool }
{
    node.pool().prove_is_pool();
}

/// [`warm_up_loads`] for a given node. It costs nothing at run time.
pub fn node_warms_up<D: PageDevice>(node: &Node<D>)
    ensures { NodeWarmsUp (node_view node.now) }
{
    node_pages_differ(node);
}
