//! The calls on the devices of an open handle.
ghost use Rattle.std.specs.Prelude.{◌≡◌, ◌*◌, ◌^◌, ◌<◌, ◌≤◌, IfErr, IfNone, IfOk, IfSome, OnOk};
ghost use Rattle.warm_c_calls.specs.Devices.{MayNotStand, MayStand, Replaces, SaysMayStand};
ghost use Rattle.warm_c_calls.specs.Devices.{devices_after, made_device};
ghost use Rattle.warm_c_base.specs.FdParts.{fd_opened, fd_state};
ghost use Rattle.warm_c_base.specs.DeviceLists.{DescriptorsDiffer};

use crate::open_node::OpenNode;
use std::alloc::Global;
use warm_c_base::{FdDevice, Refusal, WarmDevice, check_apart, devices_with};
use warm_gossip::NodeFault;
use warm_pool::PoolFault;
use warm_stamps::Items;

// Creates the device over a descriptor. `None` exactly if its pages do not fit into what a file's
// offsets can name.
fn device_of(device: &WarmDevice, page_size: usize) -> Option<FdDevice>
    ensures made { IfSome result (λ made.
        fd_state made ≡ fd_opened device.now.fd device.now.pages page_size) }
    ensures fits { IfSome result (λ _. device.now.pages * page_size < 2 ^ 63) }
    ensures refused { IfNone result (2 ^ 63 ≤ device.now.pages * page_size) }
{
    FdDevice::new(device.fd, device.pages, page_size)
}

// A device to stand in the place of another, and the devices of the handle as they would be.
#[derive(Drop)]
struct Replacement {
    made: FdDevice,
    devices: Vec<WarmDevice>,
}

impl OpenNode {
    // Creates the device that could stand in the place of one, before any page of that one is
    // looked at. Its errors are those of `replace` that are not the node's own, in its order.
    fn replacement(
        &self,
        alloc: Global,
        dev: u16,
        device: &WarmDevice,
    ) -> Result<Replacement, Refusal>
        ensures may { OnOk result (MayStand dev device.now self.now) }
        ensures apart { OnOk result (DescriptorsDiffer (devices_after dev device.now self.now)) }
        ensures made { IfOk result (λ it. fd_state it.made ≡ made_device device.now self.now) }
        ensures devices { IfOk result (λ it.
            it.devices.items ≡ devices_after dev device.now self.now) }
        ensures refused { IfErr result (MayNotStand dev device.now self.now) }
    {
        if dev as usize >= self.devices.as_slice().len() {
            return Err(Refusal::Node(NodeFault::Pool(PoolFault::NoDevice)));
        }
        let Some(made) = device_of(device, self.node.pool().page_size()) else {
            return Err(Refusal::Node(NodeFault::Pool(PoolFault::NoDevice)));
        };
        let devices = devices_with(alloc, self.devices.as_slice(), dev as usize, *device)?;
        if let Err(why) = check_apart(alloc, &devices) {
            return Err(why);
        }
        Ok(Replacement { made, devices })
    }

    /// Calls [`warm_gossip::Node::retire`] with a device over another descriptor.
    ///
    /// # Errors
    /// In this order; `Node`, with `Memory`, at any point before the device is retired. The devices
    /// are unchanged.
    /// - `Node`, with `NoDevice`: there is no device of this number, or the pages of the new one do
    ///   not fit into what a file's offsets can name.
    /// - `SameFile`: two devices would have one descriptor, or one file by what the system says.
    /// - `Node`: the node's own.
    pub fn replace(&mut self, alloc: Global, dev: u16, device: &WarmDevice) -> Result<(), Refusal>
        ensures { Replaces dev device.now self.old result self.new }
    {
        let Replacement { made, devices } = self.replacement(alloc, dev, device)?;
        if let Err(unretired) = self.node.retire(dev, made) {
            return Err(Refusal::Node(NodeFault::Pool(unretired.fault)));
        }
        self.devices = Items::of(devices);
        Ok(())
    }

    /// Says whether a device over another descriptor could stand in the place of one, before any
    /// page of that one is looked at.
    ///
    /// # Errors
    /// Those of [`OpenNode::replace`] that are not the node's own, in its order.
    pub fn may_stand(&self, alloc: Global, dev: u16, device: &WarmDevice) -> Result<(), Refusal>
        ensures { SaysMayStand dev device.now self.now result self.now }
    {
        let _replacement = self.replacement(alloc, dev, device)?;
        Ok(())
    }
}
