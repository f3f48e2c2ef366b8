//! The node that an open handle holds, and its devices.
use warm_c_base::{FdDevice, WarmDevice};
use warm_gossip::Node;
use warm_stamps::Items;

/// A node over the engine's descriptors, and the devices.
#[derive(Drop)]
pub struct OpenNode {
    /// The node.
    pub node: Node<FdDevice>,
    /// The devices over which the node is, as C gave them.
    pub devices: Items<WarmDevice>,
}
