//! A visitor that replaces a device of a shard with another.
ghost use Rattle.std.specs.Prelude.{◌≡◌, IfErr};
ghost use Rattle.warm_shard_machine.specs.Visits.{ReplacesAs};
ghost use Rattle.warm_shard_machine.specs.ShardSteps.{ShardStep};
ghost use Rattle.warm_shard_machine.specs.ToldDevices.{IsTold};

use crate::calls::{ShardCall, ShardReply};
use crate::shard::Shard;
use crate::visitors::visited;
use boxcar::tag::{Names, Tag};
use warm_devices::PageDevice;
use warm_gossip::NodeFault;
use warm_pool::RetireError;
use warm_turn::{Visit, Visited};

// A tag of the state of a device.
struct OfDevice;

impl<D: PageDevice> Names<D> for OfDevice {
    ghost use Rattle.warm_shard_machine.specs.ToldDevices.{coded_device};

    ghost numbers = { λ device. coded_device (D.state device) };
}

// The state of a device as numbers, which exist only in contracts.
fn told_of<D: PageDevice>(device: &D) -> Tag
    ensures { IsTold result (D.state device.now) }
{
    Tag::of::<D, OfDevice>(device)
}

/// Replaces a device with another, and gives the old one back.
pub struct Replacing<D> {
    /// The number of the device.
    pub dev: u16,
    /// The other device.
    pub device: D,
}

impl<D: PageDevice + Send> Visit<Shard<D>> for Replacing<D> {
    ghost use Rattle.std.specs.Prelude.{◌≡◌, ⊤, IfErr};
    ghost use Rattle.warm_shard_machine.specs.Visits.{ReplacesAs};

    type Output = Result<D, RetireError<D>>;

    ghost ready = { λ _. ⊤ };

    ghost makes = { λ v output call reply.
        ReplacesAs D.state (λ e. e.fault) v.dev (D.state v.device) output call reply
        × IfErr output (λ e. e.device ≡ v.device) };

    fn visit(
        self,
        shard: &mut Shard<D>,
    ) -> Visited<ShardCall, ShardReply, Result<D, RetireError<D>>> {
        let Replacing { dev, device } = self;
        shard.replace(dev, device)
    }
}

impl<D: PageDevice> Shard<D> {
    // Replaces a device of this shard with another, and gives the old one back.
    fn replace(
        &mut self,
        dev: u16,
        device: D,
    ) -> Visited<ShardCall, ShardReply, Result<D, RetireError<D>>>
        ensures made { ReplacesAs D.state (λ e. e.fault) dev (D.state device) result.output
            result.made.call.value result.made.reply.value }
        ensures given_back { IfErr result.output (λ e. e.device ≡ device) }
        ensures step { ShardStep self.old result.made.call.value result.made.reply.value
            self.new }
    {
        let told = told_of(&device);
        let call = ShardCall::Retire { dev, device: told };
        match self.node.replace(dev, device) {
            Ok(was) => {
                let given = told_of(&was);
                visited(call, ShardReply::Replaced { was: given }, Ok(was))
            }
            Err(unreplaced) => {
                let why = NodeFault::Pool(unreplaced.fault);
                visited(call, ShardReply::Refused(why), Err(unreplaced))
            }
        }
    }
}
