//! A node as a machine that threads share by turns.
use crate::call::{Call, Reply};
use crate::node::Node;
use std::marker::Model;
use warm_devices::PageDevice;
use warm_machine::Machine;

/// The state of a node that threads share: what a caller sees of it. No value of the type is made;
/// contracts see it as a `NodeView`.
pub struct ViewOfNode {
    _none: (),
}

impl Model for ViewOfNode {
    ghost use Rattle.warm_gossip.specs.State.{NodeView, empty_node};

    ghost Value = { NodeView };

    ghost view = { λ _. empty_node };
}

/// Every call is a step, so the replies of a turn are those of one legal history of steps.
impl<D: PageDevice + Send> Machine for Node<D> {
    ghost use Rattle.warm_gossip.specs.State.{node_view};
    ghost use Rattle.warm_gossip.specs.Step.{Step};

    type Call = Call;

    type Reply = Reply;

    type State = ViewOfNode;

    ghost view = { λ n. node_view n };

    ghost goes = { Step };

    fn call(&mut self, call: Call) -> Reply {
        Node::call(self, call)
    }
}
