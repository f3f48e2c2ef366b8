//! Creating the node that an open handle holds.
ghost use Rattle.std.specs.Prelude.{◌≡◌, IfErr, IfOk, OnOk};
ghost use Rattle.warm_c_calls.specs.Opening.{MayOpen, OpenRefused, open_request, opened_handle};

use crate::open_node::OpenNode;
use std::alloc::Global;
use warm_c_base::{Refusal, WarmDevice, copy_of, devices_of};
use warm_gossip::Node;
use warm_pool::Pool;
use warm_stamps::{Items, ReplicaId};

/// Creates a node with an empty history, over a pool without a page.
///
/// # Errors
/// In this order; `Node`, with `Memory`, at any point.
/// - `BadReplica`: the number is not valid.
/// - `Node`, with `NoDevice`: there are more devices than a pool takes, or the pages of one do not
///   fit into what a file's offsets can name.
/// - `SameFile`: two devices have one descriptor, or one file by what the system says.
/// - `NewPool`: no pool of this number of frames, or of pages of this size, is made.
pub fn open(
    alloc: Global,
    replica: u16,
    frames: usize,
    page_size: usize,
    devices: &[WarmDevice],
) -> Result<OpenNode, Refusal>
    ensures opened { IfOk result (λ held.
        held ≡ opened_handle (open_request replica frames page_size devices.now)) }
    ensures may_open { OnOk result (MayOpen (open_request replica frames page_size devices.now)) }
    ensures refused { IfErr result
        (OpenRefused (open_request replica frames page_size devices.now)) }
{
    let Ok(replica) = ReplicaId::new(replica) else {
        return Err(Refusal::BadReplica);
    };
    let made = devices_of(alloc, page_size, devices)?;
    let copy = copy_of(alloc, devices)?;
    match Pool::new(alloc, frames, page_size, made) {
        Ok(pool) => Ok(OpenNode {
            node: Node::new(alloc, replica, pool),
            devices: Items::of(copy),
        }),
        Err(error) => Err(Refusal::NewPool(error.fault)),
    }
}
