//! Nodes of a setup over lists of devices.
ghost use Rattle.std.specs.Prelude.{◌≡◌, ◌≤◌, ◌↔◌, length, map, IfOk, IsTrue};
ghost use Rattle.std.specs.List.{All};
ghost use Rattle.warm_pool.specs.declared.TheConstants.{MAX_DEVICES};
ghost use Rattle.warm_world.specs.Nodes.{AreUsable, node_over, nodes_over};
ghost use Rattle.warm_world.specs.Views.{listed};

use crate::setup::Setup;
use crate::world::are_sized;
use std::alloc::{AllocError, Global};
use warm_devices::PageDevice;
use warm_gossip::Node;
use warm_pool::{MAX_DEVICES, Pool};
use warm_stamps::ReplicaId;

// Whether no list has more devices than a page can name.
fn are_few<D: PageDevice>(devices: &[Vec<D>]) -> bool
    ensures { IsTrue result ↔ All (λ list. length list.items ≤ MAX_DEVICES) devices.now }
{
    for list in devices {
        if list.len() > MAX_DEVICES {
            return false;
        }
    }
    true
}

/// Whether nodes of a setup can be made over these lists of devices: one list for each replica,
/// each of at most [`warm_pool::MAX_DEVICES`] devices, whose pages have the setup's size.
/// Allocation-free.
pub fn are_usable<D: PageDevice>(setup: Setup, devices: &[Vec<D>]) -> bool
    ensures { IsTrue result ↔ AreUsable setup (listed D.state devices.now) }
{
    if devices.len() != setup.replicas() as usize {
        return false;
    }
    if !are_sized(devices, setup.page_size() as usize) {
        return false;
    }
    are_few(devices)
}

/// A node without references over a replica's devices, and over a pool without a page. The devices'
/// pages have the setup's size.
///
/// `AllocError` occurs only if an allocation fails. The devices are then dropped.
pub(crate) fn node_over<D: PageDevice>(
    alloc: Global,
    id: ReplicaId,
    setup: Setup,
    devices: Vec<D>,
) -> Result<Node<D>, AllocError>
    requires few { length devices.items ≤ MAX_DEVICES }
    ensures { IfOk result (λ node. node ≡ node_over setup id (map D.state devices.items)) }
{
    let frames = setup.frames() as usize;
    let page_size = setup.page_size() as usize;
    let Ok(pool) = Pool::new(alloc, frames, page_size, devices) else {
        return Err(AllocError);
    };
    Ok(Node::new(alloc, id, pool))
}

/// A node without references over each list of devices, numbered from 1: the nodes of the world
/// that [`crate::World::new`] makes over them, for a player that shares them among threads.
///
/// `AllocError` occurs only if an allocation fails. All devices are then dropped.
pub fn nodes_over<D: PageDevice>(
    alloc: Global,
    setup: Setup,
    devices: Vec<Vec<D>>,
) -> Result<Vec<Node<D>>, AllocError>
    requires usable { AreUsable setup (listed D.state devices.items) }
    ensures { IfOk result (λ nodes.
        nodes.items ≡ nodes_over setup 1 (listed D.state devices.items)) }
{
    let mut nodes = Vec::with_capacity(alloc, setup.replicas() as usize)?;
    for list in devices {
        let Ok(id) = ReplicaId::new(nodes.len() as u16 + 1) else {
            unreachable!()
        };
        let node = node_over(alloc, id, setup, list)?;
        nodes.push_reserved(node);
    }
    Ok(nodes)
}
