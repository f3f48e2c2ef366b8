//! How entries are taken in, each by the shard of its page.
ghost use Rattle.std.specs.Prelude.{◌≡◌, ◌<◌, ◌≤◌, length};
ghost use Rattle.std.specs.List.{AllByRecursion};
ghost use Rattle.warm_history.specs.Histories.{history_of_entries_at, references_of};
ghost use Rattle.warm_shards.specs.Given.{Gives};
ghost use Rattle.warm_shards.specs.Shards.{AreShards, shard_at};
ghost use Rattle.warm_visits.specs.ShardNumbers.{shard_of};

use crate::go_through::go_through;
use std::alloc::Global;
use warm_devices::PageDevice;
use warm_gossip::{Node, NodeFault};
use warm_history::Entry;
use warm_visits::{Visit, only_shard};

// The node of a shard takes in entries of its pages. All shards have the horizon.
fn join_alone<D: PageDevice>(
    nodes: &mut Vec<Node<D>>,
    shard: usize,
    horizon: u64,
    entries: &[Entry],
) -> Result<(), NodeFault>
    requires shards { AreShards nodes.old.items }
    requires there { shard < length nodes.old.items }
    requires own { AllByRecursion (λ e. shard_of (length nodes.old.items) e.page ≡ shard)
        entries.now }
    requires raised { horizon ≤ (shard_at nodes.old.items 0).history.horizon }
    ensures { Gives (references_of (history_of_entries_at horizon entries.now)) nodes.old.items
        result nodes.new.items }
{
    nodes[shard].join_entries(horizon, entries)
}

/// Each node takes in the entries of its pages. All shards have the horizon. The entries are copied
/// only if they are of pages of several shards.
pub(crate) fn join_parts<D: PageDevice>(
    alloc: Global,
    nodes: &mut Vec<Node<D>>,
    horizon: u64,
    entries: &[Entry],
) -> Result<(), NodeFault>
    requires shards { AreShards nodes.old.items }
    requires raised { horizon ≤ (shard_at nodes.old.items 0).history.horizon }
    ensures { Gives (references_of (history_of_entries_at horizon entries.now)) nodes.old.items
        result nodes.new.items }
{
    if let Some(shard) = only_shard(entries, nodes.len()) {
        return join_alone(nodes, shard, horizon, entries);
    }
    let mut visit = Visit::entries(alloc, nodes[0].id(), nodes.len(), horizon, entries)?;
    go_through(nodes, &mut visit)
}
