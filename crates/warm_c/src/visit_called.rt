//! What each call of a handle of visits does before and after the call of its visit.
ghost use Rattle.std.specs.Fn.{FnOnceReturnsAtMut};
ghost use Rattle.std.specs.Prelude.{◌≡◌, Some};
ghost use Rattle.warm_c.specs.Handles.{OnHandle};
ghost use Rattle.warm_c_base.specs.Statuses.{status_of};

use crate::called::closed;
use crate::visit_handle::VisitHandle;
use std::alloc::Global;
use warm_c_base::{Refusal, status_of};
use warm_c_calls::OpenVisit;

/// Ends a call on an open handle: puts the visit back, and returns the status.
pub(crate) fn put_back(
    handle: &mut VisitHandle,
    visit: Box<OpenVisit>,
    done: Result<(), Refusal>,
) -> i32
    ensures held { handle.new.held.visit ≡ Some visit.value }
    ensures status { result ≡ status_of done }
{
    *handle = VisitHandle::of(visit);
    status_of(done)
}

/// Makes a call of the visit of an open handle, and returns its status. It is as
/// [`crate::called::on_open`] is for nodes.
pub(crate) fn on_visit<F: FnOnce(&mut OpenVisit) -> Result<(), Refusal>>(
    alloc: Global,
    handle: &mut VisitHandle,
    call: F,
) -> i32
    requires { F.IsAlwaysCallable call }
    ensures { OnHandle (λ old ending new. FnOnceReturnsAtMut F.FnOnce call old ending new)
        handle.old.held.visit result handle.new.held.visit }
{
    let Some(mut visit) = handle.take(alloc) else {
        return closed();
    };
    let done = call(&mut visit);
    put_back(handle, visit, done)
}
