//! A visitor that pins a page whose bytes were read before, with no turn held.
ghost use Rattle.std.specs.Prelude.{◌≡◌, ◌≢◌, IfErr, IfOk};
ghost use Rattle.warm_gossip.specs.declared.fault.NodeFault.TheVariants.{Memory};
ghost use Rattle.warm_shard_machine.specs.Visits.{ClaimNothing, FillsAs};
ghost use Rattle.warm_shard_machine.specs.ShardSteps.{PinFilledStep, ShardStep};
ghost use Rattle.warm_shard_machine.specs.declared.calls.ShardCall.TheVariants.{PinFilled};
ghost use Rattle.warm_shard_machine.specs.declared.calls.ShardReply.TheVariants.{Pinned, Refused};

use crate::calls::{ShardCall, ShardReply};
use crate::shard::{Shard, is_own_page};
use crate::visitors::{Went, visited};
use boxcar::tag::Tag;
use warm_devices::PageDevice;
use warm_gossip::{Node, NodeFault};
use warm_pool::{PoolFault, Slot};
use warm_stamps::PageId;
use warm_turn::{Visit, Visited};

// Pins a page of a node, with these bytes in place of a read.
fn filled_in<D: PageDevice>(
    node: &mut Node<D>,
    page: PageId,
    bytes: &[u8],
) -> Result<Slot, NodeFault>
    requires unsure { ClaimNothing D.state }
    ensures pinned { IfOk result (λ slot. PinFilledStep node.old page bytes.now (Pinned slot)
        node.new) }
    ensures refused { IfErr result (λ why. PinFilledStep node.old page bytes.now (Refused why)
        node.new) }
    ensures no_memory { IfErr result (λ why. why ≢ Memory) }
{
    if bytes.len() != node.pool().page_size() {
        return Err(NodeFault::Pool(PoolFault::SizeDiffers));
    }
    // No device claims anything of its bytes: so any bytes are allowed.
    let _devices = node.pool().devices();
    let slot = node.pin_filled(page, bytes)?;
    Ok(slot)
}

/// Pins a page, with these bytes in place of a read. Contracts see the bytes by the tag too.
#[derive(Drop)]
pub struct Filling<'a> {
    /// The page.
    pub page: PageId,
    /// The bytes.
    pub bytes: &'a [u8],
    /// The bytes, which exist here only in contracts.
    pub told: Tag,
}

impl<'a, D: PageDevice + Send> Visit<Shard<D>> for Filling<'a> {
    ghost use Rattle.std.specs.Prelude.{◌≡◌};
    ghost use Rattle.warm_shard_machine.specs.Visits.{ClaimNothing, FillsAs};
    ghost use Rattle.warm_shard_machine.specs.declared.calls.ShardCall.TheVariants.{PinFilled};

    type Output = Went<Slot>;

    ghost ready = { λ v. ClaimNothing D.state × (v.told.numbers ≡ v.bytes.now) };

    ghost makes = { λ v output call reply. (call ≡ PinFilled v.page v.told)
        × FillsAs output reply };

    fn visit(self, shard: &mut Shard<D>) -> Visited<ShardCall, ShardReply, Went<Slot>> {
        let Filling { page, bytes, told } = self;
        shard.pin_filled(page, bytes, told)
    }
}

impl<D: PageDevice> Shard<D> {
    // Pins a page of this shard, with these bytes in place of a read.
    fn pin_filled(
        &mut self,
        page: PageId,
        bytes: &[u8],
        told: Tag,
    ) -> Visited<ShardCall, ShardReply, Went<Slot>>
        requires unsure { ClaimNothing D.state }
        requires told { told.numbers ≡ bytes.now }
        ensures call { result.made.call.value ≡ PinFilled page told }
        ensures reply { FillsAs result.output result.made.reply.value }
        ensures step { ShardStep self.old (PinFilled page told) result.made.reply.value
            self.new }
    {
        let call = ShardCall::PinFilled { page, bytes: told };
        if !is_own_page(self.count, self.number, page) {
            return visited(call, ShardReply::Foreign, Went::Foreign);
        }
        match filled_in(&mut self.node, page, bytes) {
            Ok(slot) => visited(call, ShardReply::Pinned(slot), Went::Given(slot)),
            Err(why) => visited(call, ShardReply::Refused(why), Went::Refused(why)),
        }
    }
}
