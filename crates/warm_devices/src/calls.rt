//! Counting the calls of a device for proofs.
ghost use Rattle.std.specs.Prelude.{◌≡◌};
ghost use Rattle.std.specs.Borrow.{ftrue};
ghost use Rattle.warm_devices.specs.Calls.{DeviceCalls, no_calls, one_call};

use crate::DeviceFault;
use std::marker::{Model, Send};

/// How many reads, writes and flushes were made of a device. Only contracts and proofs see the
/// counts: a value takes no memory, and its calls do nothing when the program runs.
///
/// A device has one, and notes in it each of its calls. So the contract of what calls a device can
/// say how often it does. [`crate::Counted`] counts when the program runs.
#[derive(Drop)]
pub struct CallsMade {
    pub ghost made: { DeviceCalls },
}

impl Model for CallsMade {
    ghost also_owns = { λ _. ftrue };
}

unsafe impl Send for CallsMade {}

impl CallsMade {
    /// No call was made yet.
    pub fn new() -> CallsMade
        ensures { result.made ≡ no_calls }
    {
        CallsMade {}
    }

    /// Notes one call of the kind that fails with this fault, whether it failed or not.
    #[inline(always)]
    pub fn note(&mut self, kind: DeviceFault)
        ensures { self.new.made ≡ one_call kind self.old.made }
    {
        *self = CallsMade::after(self, &kind);
    }

    // The calls after one more.
    #[inline(always)]
    fn after(_before: &CallsMade, _kind: &DeviceFault) -> CallsMade
        ensures { result.made ≡ one_call _kind.now _before.now.made }
    {
        CallsMade {}
    }
}
