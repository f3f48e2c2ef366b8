//! The calls on the history of an open handle.
ghost use Rattle.std.specs.Prelude.{◌≡◌, ◌≤◌, length, map, IfErr, IfOk, OnOk};
ghost use Rattle.warm_c_calls.specs.Calls.{Absorbs, AreOfReplicas, BatchRefused, CountsPages};
ghost use Rattle.warm_c_calls.specs.Calls.{HasBadReplica, Lists};
ghost use Rattle.warm_c_base.specs.Values.{c_page, reference_of, with_start};
ghost use Rattle.warm_c_base.specs.declared.status.Refusal.TheVariants.{BadReplica};

use crate::open_node::OpenNode;
use std::alloc::{AllocError, Global};
use warm_c_base::{Refusal, WarmPage, WarmReference};
use warm_stamps::{PageId, Reference, ReplicaId, Stamp};

// Checks that each reference is of a replica.
fn check_replicas(batch: &[WarmReference]) -> Result<(), Refusal>
    ensures good { OnOk result (AreOfReplicas batch.now) }
    ensures bad { IfErr result (λ why. (why ≡ BadReplica) × HasBadReplica batch.now) }
{
    for reference in batch {
        if let Err(_number) = ReplicaId::new(reference.replica) {
            return Err(Refusal::BadReplica);
        }
    }
    Ok(())
}

// The references, as a node knows them.
pub(crate) fn references_of(
    alloc: Global,
    batch: &[WarmReference],
) -> Result<Vec<Reference>, Refusal>
    ensures made { IfOk result (λ references. references.items ≡ map reference_of batch.now) }
    ensures good { OnOk result (AreOfReplicas batch.now) }
    ensures refused { IfErr result (BatchRefused batch.now) }
{
    check_replicas(batch)?;
    let mut references = Vec::with_capacity(alloc, batch.len())?;
    for reference in batch {
        let Ok(replica) = ReplicaId::new(reference.replica) else {
            return Err(Refusal::BadReplica);
        };
        references.push_reserved(Reference {
            page: PageId {
                dev: reference.dev,
                no: reference.no,
            },
            stamp: Stamp {
                time: reference.time,
                replica,
            },
        });
    }
    Ok(references)
}

// The pages, as C knows them.
pub(crate) fn c_pages(alloc: Global, pages: &[PageId]) -> Result<Vec<WarmPage>, AllocError>
    ensures { IfOk result (λ made. made.items ≡ map c_page pages.now) }
{
    let mut listed = Vec::with_capacity(alloc, pages.len())?;
    for page in pages {
        listed.push_reserved(WarmPage::of(*page));
    }
    Ok(listed)
}

// Puts pages at the start of a buffer.
pub(crate) fn put_pages(pages: &[WarmPage], into: &mut [WarmPage])
    requires { length pages.now ≤ length into.old }
    ensures { into.new ≡ with_start pages.now into.old }
{
    into[..pages.len()].copy_from_slice(pages);
}

impl OpenNode {
    /// Calls [`warm_gossip::Node::absorb`].
    ///
    /// # Errors
    /// In this order; nothing has changed.
    /// - `BadReplica`: one of the references has a replica's number that is not valid.
    /// - `Node`: the node's own.
    pub fn absorb(&mut self, alloc: Global, batch: &[WarmReference]) -> Result<(), Refusal>
        ensures { Absorbs batch.now self.old result self.new }
    {
        let references = references_of(alloc, batch)?;
        self.node.absorb(&references)?;
        Ok(())
    }

    /// Calls [`warm_gossip::Node::warm_list`] for as many pages as there is room for, puts them at
    /// the start of `pages`, and writes their number.
    ///
    /// # Errors
    /// `Node`, with `Memory`. `pages` and `count` are unchanged.
    pub fn list(
        &mut self,
        alloc: Global,
        pages: &mut [WarmPage],
        count: &mut usize,
    ) -> Result<(), Refusal>
        ensures { Lists pages.old count.old pages.new count.new self.old result self.new }
    {
        let hottest = self.node.warm_list(pages.len())?;
        let listed = c_pages(alloc, hottest.as_slice())?;
        put_pages(&listed, pages);
        *count = listed.len();
        Ok(())
    }

    /// Returns how many pages the history knows.
    pub fn count(&self) -> usize
        ensures { CountsPages result self.now self.now }
    {
        self.node.history().len()
    }
}
