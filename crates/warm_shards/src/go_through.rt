//! Visits of nodes that nobody else has: a visit enters one after the other.
ghost use Rattle.std.specs.Prelude.{◌≡◌, length, None};
ghost use Rattle.warm_shards.specs.VisitLaws.{GoesAlone};
ghost use Rattle.warm_visits.specs.Visits.{next_shard, result_of};

use warm_devices::PageDevice;
use warm_gossip::{Node, NodeFault};
use warm_visits::Visit;

/// Lets a visit into the nodes, until it has no errand, or a node has refused one.
pub(crate) fn go_through<D: PageDevice>(
    nodes: &mut Vec<Node<D>>,
    visit: &mut Visit,
) -> Result<(), NodeFault>
    requires { length nodes.old.items ≡ visit.old.count }
    ensures gone { GoesAlone visit.old nodes.old.items visit.new nodes.new.items }
    ensures over { next_shard visit.new ≡ None }
    ensures returned { result ≡ result_of visit.new.stopped }
{
    while let Some(shard) = visit.next() {
        visit.enter(&mut nodes[shard]);
    }
    visit.result()
}
