//! What a visit gives to each shard: the references of a batch to its pages, or the entries of
//! these.
ghost use Rattle.std.specs.Prelude.{◌<◌, ◌≤◌};
ghost use Rattle.warm_visits.specs.Given.{GivesOne};
ghost use Rattle.warm_visits.specs.VisitParts.{IsFirstPart, parts_count, part_at};

use crate::batch_parts::PartList;
use warm_devices::PageDevice;
use warm_gossip::{Node, NodeFault};
use warm_history::Entry;
use warm_stamps::Reference;

// A part for each shard.
#[derive(Drop)]
pub(crate) enum Parts {
    // Of a batch.
    Batch(PartList<Reference>),
    // Of entries at a horizon.
    Entries(u64, PartList<Entry>),
}

impl Parts {
    /// The first shard from this one on that has a part, or how many there are.
    pub(crate) fn first(&self, from: usize) -> usize
        requires { from ≤ parts_count self.now }
        ensures { IsFirstPart self.now from result }
    {
        match self {
            Parts::Batch(parts) => parts.first_some(from),
            Parts::Entries(_, parts) => parts.first_some(from),
        }
    }

    /// Gives a node the part of the shard of this number.
    pub(crate) fn give<D: PageDevice>(
        &self,
        shard: usize,
        node: &mut Node<D>,
    ) -> Result<(), NodeFault>
        requires { shard < parts_count self.now }
        ensures { GivesOne (part_at self.now shard) node.old result node.new }
    {
        match self {
            Parts::Batch(parts) => node.absorb(parts.part(shard)),
            Parts::Entries(horizon, parts) => node.join_entries(*horizon, parts.part(shard)),
        }
    }
}
