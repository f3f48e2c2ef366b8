//! The visitors of a node: each has the node for one turn.
ghost use Rattle.std.specs.Prelude.{◌≡◌, IsSome};
ghost use Rattle.std.specs.Fn.{FnOnceReturnsAt, FnOnceReturnsAtMut};
ghost use Rattle.warm_pool.specs.PageBytes.{MakesDirty};
ghost use Rattle.warm_gossip.specs.Clauses.{Goes};
ghost use Rattle.warm_replica.specs.LentPages.{ChangesBy, LooksBy};

use crate::lending::{ChangeOutput, LookOutput, change_in, look_in};
use crate::snapshots::{read_made, stale_read, write_made};
use warm_devices::PageDevice;
use warm_gossip::{Call, Node, Reply};
use warm_pool::Slot;
use warm_turn::{Visit, Visited};

// Calls a closure with the bytes of a slot's page where they lie.
#[derive(Drop)]
pub(crate) struct SlotLook<F> {
    pub(crate) slot: Slot,
    pub(crate) f: F,
}

impl<D: PageDevice + Send, T, F: FnOnce(&[u8]) -> T + Drop> Visit<Node<D>> for SlotLook<F> {
    ghost use Rattle.std.specs.Fn.{FnOnceReturnsAt};
    ghost use Rattle.warm_replica.specs.LentPages.{LooksBy};

    type Output = Option<T>;

    ghost ready = { λ v. F.IsAlwaysCallable v.f };

    ghost makes = { λ v output call reply. LooksBy v.slot
        (λ given bytes. FnOnceReturnsAt F.FnOnce v.f bytes given) output call reply };

    fn visit(self, node: &mut Node<D>) -> Visited<Call, Reply, Option<T>> {
        let SlotLook { slot, f } = self;
        looked(node, slot, f)
    }
}

// Calls a closure with the bytes of a slot's page where they lie, to be written to.
#[derive(Drop)]
pub(crate) struct SlotChange<F> {
    pub(crate) slot: Slot,
    pub(crate) f: F,
}

impl<D: PageDevice + Send, T, F: FnOnce(&mut [u8]) -> T + Drop> Visit<Node<D>> for SlotChange<F> {
    ghost use Rattle.std.specs.Fn.{FnOnceReturnsAtMut};
    ghost use Rattle.warm_replica.specs.LentPages.{ChangesBy};

    type Output = Option<T>;

    ghost ready = { λ v. F.IsAlwaysCallable v.f };

    ghost makes = { λ v output call reply. ChangesBy v.slot
        (λ given before after. FnOnceReturnsAtMut F.FnOnce v.f before given after)
        output call reply };

    fn visit(self, node: &mut Node<D>) -> Visited<Call, Reply, Option<T>> {
        let SlotChange { slot, f } = self;
        changed(node, slot, f)
    }
}

// Calls the closure with the bytes of the slot's page, or doesn't if the slot doesn't hold it.
fn looked<D: PageDevice, T, F: FnOnce(&[u8]) -> T + Drop>(
    node: &Node<D>,
    slot: Slot,
    f: F,
) -> Visited<Call, Reply, Option<T>>
    requires callable { F.IsAlwaysCallable f }
    ensures made { LooksBy slot (λ given bytes. FnOnceReturnsAt F.FnOnce f bytes given)
        result.output result.made.call.value result.made.reply.value }
    ensures step { Goes node.now result.made.call.value result.made.reply.value node.now }
{
    if !node.pool().holds(slot) {
        return Visited {
            made: stale_read(slot),
            output: None,
        };
    }
    let LookOutput { bytes, len, output } = look_in(node, slot, f);
    Visited {
        made: read_made(slot, len, &bytes),
        output: Some(output),
    }
}

// Calls the closure with the bytes of the slot's page, to be written to, or doesn't if the slot
// doesn't hold it.
fn changed<D: PageDevice, T, F: FnOnce(&mut [u8]) -> T + Drop>(
    node: &mut Node<D>,
    slot: Slot,
    f: F,
) -> Visited<Call, Reply, Option<T>>
    requires callable { F.IsAlwaysCallable f }
    ensures made { ChangesBy slot
        (λ given before after. FnOnceReturnsAtMut F.FnOnce f before given after)
        result.output result.made.call.value result.made.reply.value }
    ensures step { Goes node.old result.made.call.value result.made.reply.value node.new }
    ensures dirty { IsSome result.output → MakesDirty node.old.pool slot node.new.pool }
{
    if !node.pool().holds(slot) {
        return Visited {
            made: stale_read(slot),
            output: None,
        };
    }
    let ChangeOutput {
        before: _before,
        after,
        output,
    } = change_in(node, slot, f);
    Visited {
        made: write_made(slot, &after),
        output: Some(output),
    }
}
