//! The table that the passes share: two words and a cell.
//!
//! Word 0 is the next ticket, and word 1 the ticket that is served. The cell, in the one slot
//! of the table, is for the machine.
ghost use Rattle.std.specs.Prelude.{◌≡◌, IfOk, IfErr};

use crate::fault::Memory;
use crate::visit::{Visit, Visited};
use atomic_table::{Seat, Shared, Table, TableRule};
use std::alloc::{AllocFailed, Global};
use std::collections::LinkedList;
use std::marker::Model;
use std::snapshot::Snapshot;
use warm_machine::{Machine, Operation};

/// What is kept of an ended pass. It exists only in contracts.
pub struct EndedPass<C, R> {
    /// Its number.
    pub number: u64,
    /// Its calls, in their order.
    pub calls: LinkedList<Operation<C, R>>,
}

/// A share of the right to close a turn: `parts` of `whole`. It exists only in contracts, in which
/// numbers have no bound.
pub struct Share {
    /// How many parts it has.
    pub parts: u64,
    /// How many parts the whole right has.
    pub whole: u64,
}

/// What a seat at the table knows. It exists only in contracts.
pub struct View<X, C, R> {
    /// False for a used-up seat.
    pub sees: bool,
    /// True for a pass, and false for a note.
    pub owns: bool,
    /// A ticket was taken and the turn is not passed on yet.
    pub waits: bool,
    /// This seat has taken the machine out of its cell.
    pub serves: bool,
    /// The last number, `u64::MAX`, was found in the ticket word.
    pub found_last: bool,
    /// Its share of the right to close the turn.
    pub share: Share,
    /// The number of the pass, which no other pass of the turn has.
    pub number: u64,
    /// The ticket, if one was taken.
    pub ticket: u64,
    /// The turn's opening state.
    pub opening: Option<X>,
    /// The state of the machine that this seat has taken.
    pub state: Option<X>,
    /// A prefix of the history, as this seat has seen it.
    pub seen: LinkedList<Operation<C, R>>,
    /// A prefix that was learned from another seat, and is not looked up yet.
    pub also: LinkedList<Operation<C, R>>,
    /// The turn's opening state, as it was learned.
    pub also_opening: Option<X>,
    /// The pass's own calls, in their order.
    pub mine: LinkedList<Operation<C, R>>,
    /// The passes that were ended into this one, and those that they held.
    pub ended: LinkedList<EndedPass<C, R>>,
}

/// A call and its reply, as contracts see them. It has no bytes.
#[derive(Drop)]
pub struct CallMade<C, R> {
    /// The call.
    pub call: Snapshot<C>,
    /// The reply.
    pub reply: Snapshot<R>,
}

/// A machine in a heap box: each turn takes it out of its cell and puts it back, which moves only a
/// pointer. Contracts see the machine.
#[derive(Drop)]
pub struct BoxedMachine<M> {
    machine: Box<M>,
}

impl<M> Model for BoxedMachine<M> {
    ghost Value = { M };

    ghost view = { λ boxed. boxed.machine.value };
}

impl<M> BoxedMachine<M> {
    // The machine in a box of its own.
    pub(crate) fn holding(alloc: Global, machine: M) -> Result<BoxedMachine<M>, Memory<M>>
        ensures ok { IfOk result (λ boxed. boxed ≡ machine) }
        ensures err { IfErr result (λ e. e.machine ≡ machine) }
    {
        match Box::new(alloc, machine) {
            Ok(machine) => Ok(BoxedMachine { machine }),
            Err(AllocFailed { value }) => Err(Memory { machine: value }),
        }
    }

    // The machine. Allocation-free; the box is freed.
    pub(crate) fn into_machine(self) -> M
        ensures { result ≡ self }
    {
        Box::into_inner(self.machine)
    }
}

impl<M: Machine> BoxedMachine<M> {
    // Lets the visitor have the machine.
    #[inline(always)]
    pub(crate) fn admit<V: Visit<M>>(&mut self, visitor: V) -> Visited<M::Call, M::Reply, V::Output>
        requires ready { V.ready visitor }
        ensures makes { V.makes visitor result.output result.made.call.value
            result.made.reply.value }
        ensures goes { M.goes (M.view self.old) result.made.call.value result.made.reply.value
            (M.view self.new) }
    {
        visitor.visit(&mut self.machine)
    }
}

/// The contents of the machine's cell, while no pass has taken the machine out.
#[derive(Drop)]
pub struct CellContents<M, C, R> {
    /// The machine.
    pub machine: BoxedMachine<M>,
    /// What the last visitor did, as a call and its reply.
    pub made: Option<CallMade<C, R>>,
}

/// The rule of the table, `TicketRuleHolds` of `specs/Rule.antt`. Its key is the machine that the
/// turn opened with.
pub struct TicketRule;

impl<M: Machine> TableRule<
    Option<CellContents<M, M::Call, M::Reply>>,
    View<M::State, M::Call, M::Reply>,
    Snapshot<M>,
> for TicketRule {
    ghost use Rattle.warm_turn.specs.Rule.{TicketRuleHolds};
    ghost use Rattle.warm_turn.specs.CallHistories.{first_pass};

    ghost holds = { λ key. TicketRuleHolds M.view M.goes (M.view key.value) };

    ghost first = { λ key. first_pass (M.view key.value) };
}

/// The machine's cell, the one slot of the table of a turn over `M`: empty while a pass has taken
/// the machine out.
pub type MachineCell<M> = Option<CellContents<M, <M as Machine>::Call, <M as Machine>::Reply>>;

/// What a seat of a turn over `M` knows.
pub type ViewOf<M> = View<<M as Machine>::State, <M as Machine>::Call, <M as Machine>::Reply>;

/// A seat at the table of a turn over `M`. A pass has one, and so has a note.
pub type TurnSeat<M> = Seat<MachineCell<M>, ViewOf<M>>;

/// The part of the table of a turn over `M` that all threads share.
pub type SharedTable<M> = Shared<MachineCell<M>, ViewOf<M>, Snapshot<M>, TicketRule>;

/// The table of a turn over `M`.
pub type TicketTable<M> = Table<MachineCell<M>, ViewOf<M>, Snapshot<M>, TicketRule, Global>;
