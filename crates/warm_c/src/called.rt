//! What each call of a handle does before and after the call of what the handle holds.
ghost use Rattle.std.specs.Fn.{FnOnceReturnsAtMut};
ghost use Rattle.std.specs.Prelude.{◌≡◌, pos, Some};
ghost use Rattle.warm_c.specs.Handles.{OnHandle};
ghost use Rattle.warm_c_base.specs.Statuses.{code_of, status_of};
ghost use Rattle.warm_c_base.specs.declared.status.Refusal.TheVariants.{Closed};

use crate::handle::Handle;
use std::alloc::Global;
use warm_c_base::{Refusal, status_of};
use warm_c_calls::OpenNode;

/// Returns the status of a call on a closed handle.
pub(crate) fn closed() -> i32
    ensures { result ≡ pos (code_of Closed) }
{
    status_of(Err(Refusal::Closed))
}

/// Ends a call on an open handle: puts the node back, and returns the status.
pub(crate) fn put_back(handle: &mut Handle, node: Box<OpenNode>, done: Result<(), Refusal>) -> i32
    ensures held { handle.new.held.node ≡ Some node.value }
    ensures status { result ≡ status_of done }
{
    *handle = Handle::of(node);
    status_of(done)
}

/// Makes a call of the node of an open handle, and returns its status. A call that writes through a
/// pointer of C takes the node itself: nothing is known of what a closure that was not called has
/// borrowed.
pub(crate) fn on_open<F: FnOnce(&mut OpenNode) -> Result<(), Refusal>>(
    alloc: Global,
    handle: &mut Handle,
    call: F,
) -> i32
    requires { F.IsAlwaysCallable call }
    ensures { OnHandle (λ old ending new. FnOnceReturnsAtMut F.FnOnce call old ending new)
        handle.old.held.node result handle.new.held.node }
{
    let Some(mut node) = handle.take(alloc) else {
        return closed();
    };
    let done = call(&mut node);
    put_back(handle, node, done)
}
