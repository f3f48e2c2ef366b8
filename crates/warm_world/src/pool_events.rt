//! Events of a replica's pool.
ghost use Rattle.std.specs.Prelude.{IsSome};
ghost use Rattle.warm_gossip.specs.State.{node_view};
ghost use Rattle.warm_world.specs.Effects.{call_of, reply_of};
ghost use Rattle.warm_world.specs.Replicas.{SomeReply, answered};

use crate::event::{Answer, Event};
use warm_devices::PageDevice;
use warm_gossip::{Node, NodeFault};

/// Makes the node's call of the event, and returns its reply as an answer, or its refusal.
///
/// Each call is made by its method, not as a value: a `Call` and a `Reply` have space for a
/// message's digests, 2 KB, which each function on the path of a pin would clear. It is taken into
/// its callers, since those that know the event then hold nothing of the others.
#[inline(always)]
pub(crate) fn ask<D: PageDevice>(node: &mut Node<D>, event: Event) -> Result<Answer, NodeFault>
    requires calls { IsSome (call_of event) }
    ensures { SomeReply (node_view node.old) (call_of event) (reply_of (answered result))
        (node_view node.new) }
{
    match event {
        Event::Pin(_, page) => Ok(Answer::Pinned(node.pin(page)?)),
        Event::Unpin(_, slot) => {
            node.unpin(slot)?;
            Ok(Answer::Done)
        }
        Event::Put(_, slot, at, bytes) => {
            node.write(slot, at as usize, bytes.as_slice())?;
            Ok(Answer::Done)
        }
        Event::Get(_, slot, at, len) => {
            let bytes = node.read(slot, at as usize, len as usize)?;
            Ok(Answer::Bytes(bytes))
        }
        Event::Victim(_) => Ok(Answer::Page(node.victim())),
        Event::Warm(_, n) => Ok(Answer::Pages(node.warm_list(n as usize)?)),
        Event::WarmStep(_) => Ok(Answer::Loaded(node.warm_step()?)),
        _ => unreachable!(),
    }
}
