//! Visits: a caller has the machine for one turn.

use crate::table::CallMade;
use std::snapshot::Snapshot;
use warm_machine::Machine;

/// What a visitor hands back: its result, and what it did, as a call of the machine and the reply.
pub struct Visited<C, R, T> {
    /// The call and the reply, which exist only in contracts. They enter the history.
    pub made: CallMade<C, R>,
    /// The result of the visit.
    pub output: T,
}

/// A caller that has the machine for one turn, by [`crate::Turn::visit`].
///
/// A visitor works on the machine itself, so that nothing is handed over: it can read a value where
/// it lies, and have the machine lend it to a closure. It says by a call and a reply what it did,
/// and what it did must be what the machine does at that call. Both exist only in contracts.
///
/// A visitor that calls the turn that it visits waits forever. No clause excludes that.
pub trait Visit<M: Machine> {
    /// The type of results.
    type Output;

    /// What must hold of a visitor, for example that its closure may be called.
    ghost ready: { Self → Type 0 };

    /// The visitor, its result, and the call and the reply that say what it did.
    ghost makes: { Self → Self.Output → M.Call → M.Reply → Type 0 };

    /// Visits the machine.
    fn visit(self, machine: &mut M) -> Visited<M::Call, M::Reply, Self::Output>
        requires ready { ready self }
        ensures makes { makes self result.output result.made.call.value result.made.reply.value }
        ensures goes { M.goes (M.view machine.old) result.made.call.value result.made.reply.value
            (M.view machine.new) };
}

// The visitor that calls the machine, and gives its reply.
pub(crate) struct Calling<C> {
    // The call.
    pub(crate) call: C,
}

impl<M: Machine> Visit<M> for Calling<M::Call> {
    ghost use Rattle.std.specs.Prelude.{◌≡◌, ⊤};

    type Output = M::Reply;

    ghost ready = { λ _. ⊤ };

    ghost makes = { λ visitor output call reply. (call ≡ visitor.call) × (reply ≡ output) };

    #[inline(always)]
    fn visit(self, machine: &mut M) -> Visited<M::Call, M::Reply, M::Reply> {
        let Calling { call } = self;
        let asked = Snapshot::of(&call);
        let output = machine.call(call);
        let made = CallMade {
            call: asked,
            reply: Snapshot::of(&output),
        };
        Visited { made, output }
    }
}
