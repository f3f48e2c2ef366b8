//! The histories of shards, joined into one.
ghost use Rattle.std.specs.Prelude.{◌≡◌, ◌<◌, ◌≤◌, ℕ, IfOk};
ghost use Rattle.warm_visits.specs.VisitReads.{ReadsOne, copying_visit, nothing_copied};

use std::alloc::{AllocError, Global};
use std::marker::Model;
use warm_devices::PageDevice;
use warm_gossip::{Node, NodeFault};
use warm_history::History;

// The history of the shards before one.
#[derive(Drop)]
pub(crate) struct Copying {
    pub(crate) shard: usize,
    pub(crate) history: History,
}

impl Copying {
    // Joins the history of the next shard.
    fn copy<D: PageDevice>(&mut self, node: &Node<D>, count: usize) -> Result<(), NodeFault>
        requires { self.old.shard < count }
        ensures copied { (id : ℕ) → ReadsOne (copying_visit id count self.old) node.now result
            (copying_visit id count self.new) node.now }
        ensures within { self.new.shard ≤ count }
    {
        self.history.join(node.history())?;
        self.shard += 1;
        Ok(())
    }
}

/// What was copied so far, in a heap box: a history has 3 KB, and a visit goes by value from shard
/// to shard. Contracts see what is in the box.
#[derive(Drop)]
pub(crate) struct BoxedCopying {
    inside: Box<Copying>,
}

impl Model for BoxedCopying {
    ghost use Rattle.warm_visits.specs.declared.copying.Copying.{Copying};

    ghost Value = { Copying };

    ghost view = { λ boxed. boxed.inside.value };
}

impl BoxedCopying {
    /// Before any history was copied.
    ///
    /// `AllocError` occurs only if the allocation fails.
    pub(crate) fn empty(alloc: Global) -> Result<BoxedCopying, AllocError>
        ensures { IfOk result (λ boxed. boxed ≡ nothing_copied) }
    {
        let copying = Copying {
            shard: 0,
            history: History::new(alloc),
        };
        let inside = Box::new(alloc, copying)?;
        Ok(BoxedCopying { inside })
    }

    /// The shard that is copied next.
    pub(crate) fn shard(&self) -> usize
        ensures { result ≡ self.now.shard }
    {
        self.inside.shard
    }

    /// The history of the shards before.
    pub(crate) fn history(&self) -> &History
        ensures { result.now ≡ self.now.history }
    {
        &self.inside.history
    }

    /// The history of the shards before.
    pub(crate) fn into_history(self) -> History
        ensures { result ≡ self.history }
    {
        let Copying { shard: _, history } = Box::into_inner(self.inside);
        history
    }

    /// Joins the history of the next shard.
    ///
    /// `Memory` occurs only if an allocation fails.
    pub(crate) fn copy<D: PageDevice>(
        &mut self,
        node: &Node<D>,
        count: usize,
    ) -> Result<(), NodeFault>
        requires { self.old.shard < count }
        ensures copied { (id : ℕ) → ReadsOne (copying_visit id count self.old) node.now result
            (copying_visit id count self.new) node.now }
        ensures within { self.new.shard ≤ count }
    {
        self.inside.copy(node, count)
    }
}
