//! The turn, its passes and notes.
ghost use Rattle.std.specs.Prelude.{◌≡◌, ◌≢◌, ℕ, ◌<◌, [], ◌∷◌, Some};
ghost use Rattle.std.specs.Prelude.{true, false, IfOk, IfErr, IsOk, OnErr, OnOk};
ghost use Rattle.warm_turn.specs.declared.table.CallMade.{CallMade};
ghost use Rattle.warm_turn.specs.declared.table.CellContents.{CellContents};
ghost use Rattle.warm_turn.specs.CallHistories.{calls_by, first_pass, new_pass, pass_note, as_spent};
ghost use Rattle.warm_turn.specs.CallHistories.{IsPass, IsStep, IsLast, Called, Learned, Joined};
ghost use Rattle.warm_turn.specs.CallHistories.{MadeVisit, halved};
ghost use Rattle.warm_turn.specs.Shares.{IsWhole};
ghost use Rattle.warm_turn.specs.Rule.{IsTicketTable, AreWords, MarkShows};
ghost use Rattle.warm_turn.specs.Steps.{IsMade, Served, ServedIn, HasPassedOn, before_ticket};

use crate::fault::{Busy, Memory, TurnsSpent};
use crate::plays::{Become, CatchUp, Come, End, GiveNote, GivePass, Learn, PassOn};
use crate::table::{BoxedMachine, CellContents, MachineCell, SharedTable, TicketTable, TurnSeat};
use crate::visit::{Calling, Visit, Visited};
use crate::waiting::{poll_for_ticket, poll_for_turn, try_turn};
use atomic_table::{Refused, Table};
use std::alloc::{AllocFailed, Global};
use std::marker::Model;
use std::snapshot::Snapshot;
use std::sync::Wait;
use warm_machine::Machine;

/// A machine that threads share: they call it through a `&`, each with a [`Pass`] of its own.
///
/// Contracts see its table (`table`), and its opening state (`opening`). A pass or a note belongs
/// to the turn whose table it has; each call requires that.
///
/// A turn that is dropped drops the machine in its cell. [`Turn::close`] gives it back.
#[derive(Drop)]
pub struct Turn<M: Machine> {
    table: TicketTable<M>,
}

impl<M: Machine> Model for Turn<M> {
    ghost use Rattle.std.specs.Prelude.{◌≡◌};
    ghost use Rattle.warm_turn.specs.CallHistories.{TurnView, turn_at};
    ghost use Rattle.warm_turn.specs.Rule.{IsTicketTable};

    ghost Value = { TurnView M.State };

    ghost view = { λ t. turn_at t.table.shared.table_id (M.view t.table.shared.key.value) };

    ghost invariant = { λ t. IsTicketTable t.table.shared.table_id };
}

/// The right of one caller to call, of no bytes. It belongs to the turn that made it (`table`), and
/// may go to another thread.
///
/// Contracts see what it knows (`view`): the list `seen`, a prefix of the turn's history that is
/// legal from the `opening` state; its `number`; its own calls, `mine`; and the numbers and calls
/// of the passes that were ended into it, `ended`. The operations that `seen` has of each of these
/// numbers are exactly that pass's calls, each once, in their order, and no number occurs twice.
///
/// Its `found_last` says that it is spent: it was refused with [`TurnsSpent`]. A spent pass is never
/// answered again. It may still learn, be ended and close the turn.
///
/// It has a `share` of the right to close the turn. All passes together have the whole right.
///
/// A pass that is dropped leaves its calls in the history, and its number is not used again. Its
/// share is lost.
#[derive(Drop)]
pub struct Pass<M: Machine> {
    seat: TurnSeat<M>,
}

impl<M: Machine> Model for Pass<M> {
    ghost use Rattle.std.specs.Prelude.{◌≡◌, []};
    ghost use Rattle.warm_turn.specs.CallHistories.{PassView, IsPass};

    ghost Value = { PassView M.State M.Call M.Reply };

    ghost view = { λ p. record { table = p.seat.table_id; view = p.seat.me.0 } };

    ghost invariant = { λ p. (p.seat.me.1 ≡ []) × IsPass M.goes p.seat.me.0 };
}

/// What a pass had seen, for another pass of the same turn to learn, of no bytes. It has no number
/// and no calls, cannot call, and may go to another thread. Dropping it loses nothing.
#[derive(Drop)]
pub struct Note<M: Machine> {
    seat: TurnSeat<M>,
}

impl<M: Machine> Model for Note<M> {
    ghost use Rattle.std.specs.Prelude.{◌≡◌, []};
    ghost use Rattle.warm_turn.specs.CallHistories.{PassView, IsNote};

    ghost Value = { PassView M.State M.Call M.Reply };

    ghost view = { λ p. record { table = p.seat.table_id; view = p.seat.me.0 } };

    ghost invariant = { λ p. (p.seat.me.1 ≡ []) × IsNote p.seat.me.0 };
}

// Lets the visitor have the machine, and notes what it did.
#[inline(always)]
fn serve_held<M: Machine, V: Visit<M>>(
    held: &mut CellContents<M, M::Call, M::Reply>,
    visitor: V,
) -> V::Output
    requires ready { V.ready visitor }
    ensures made { (d : CallMade M.Call M.Reply) × (held.new.made ≡ Some d)
        × V.makes visitor result d.call.value d.reply.value
        × M.goes (M.view held.old.machine) d.call.value d.reply.value
        (M.view held.new.machine) }
{
    let visited = held.machine.admit(visitor);
    let Visited { made, output } = visited;
    held.made = Some(made);
    output
}

// Lets the visitor have the machine in the slot, where it lies.
#[inline(always)]
fn serve_in<M: Machine, V: Visit<M>>(slot: &mut MachineCell<M>, visitor: V) -> V::Output
    requires has { (h : CellContents M M.Call M.Reply) × (slot.old ≡ Some h) }
    requires ready { V.ready visitor }
    ensures made { (c : M.Call) × (r : M.Reply) × V.makes visitor result c r
        × ServedIn M.view M.goes slot.old c r slot.new }
{
    let Some(held) = slot else { unreachable!() };
    serve_held::<M, V>(held, visitor)
}

// Lets the visitor have the machine in the slot.
#[inline(always)]
fn serve<M: Machine, V: Visit<M>>(
    shared: &SharedTable<M>,
    seat: &mut TurnSeat<M>,
    visitor: V,
) -> V::Output
    requires table { seat.old.table_id ≡ shared.now.table_id }
    requires has { (h : CellContents M M.Call M.Reply) × (seat.old.me.1 ≡ (0, Some h) ∷ []) }
    requires ready { V.ready visitor }
    ensures table { (seat.new.table_id ≡ seat.old.table_id) × (seat.new.id ≡ seat.old.id) }
    ensures made { (c : M.Call) × (r : M.Reply) × V.makes visitor result c r
        × Served M.view M.goes seat.old.me c r seat.new.me }
{
    let slot = seat.slot_mut(shared, 0);
    serve_in::<M, V>(slot, visitor)
}

// Adds the call to the history, and puts the machine back into the slot for the next ticket.
fn pass_on<M: Machine>(shared: &SharedTable<M>, seat: &mut TurnSeat<M>)
    requires table { (seat.old.table_id ≡ shared.now.table_id) × IsTicketTable shared.now.table_id }
    requires made { (c : M.Call) × (r : M.Reply) × IsMade M.view M.goes seat.old.me c r }
    ensures table { (seat.new.table_id ≡ seat.old.table_id) × (seat.new.id ≡ seat.old.id) }
    ensures home { seat.new.me.1 ≡ [] }
    ensures added { (c : M.Call) (r : M.Reply) → IsMade M.view M.goes seat.old.me c r
        → HasPassedOn M.goes seat.old.me c r seat.new.me }
{
    shared.fetch_add::<PassOn>(seat, 1, 1);
}

// Waits until the ticket is served, lets the visitor have the machine and passes the turn on.
#[inline(never)]
fn visit_later<M: Machine, R: Wait, V: Visit<M>>(
    rt: &R,
    shared: &SharedTable<M>,
    seat: &mut TurnSeat<M>,
    ticket: u64,
    visitor: V,
) -> V::Output
    requires table { (seat.old.table_id ≡ shared.now.table_id) × IsTicketTable shared.now.table_id }
    requires waits { (seat.old.me.1 ≡ []) × (seat.old.me.0.waits ≡ true)
        × (seat.old.me.0.serves ≡ false) × (seat.old.me.0.ticket ≡ ticket) }
    requires pass { (seat.old.me.0.found_last ≡ false)
        × IsPass M.goes (before_ticket seat.old.me.0) }
    requires ready { V.ready visitor }
    ensures table { (seat.new.table_id ≡ seat.old.table_id) × (seat.new.id ≡ seat.old.id)
        × (seat.new.me.1 ≡ []) }
    ensures pass { IsPass M.goes seat.new.me.0 }
    ensures ok { MadeVisit M.goes (V.makes visitor result) (before_ticket seat.old.me.0)
        seat.new.me.0 }
{
    poll_for_turn(rt, shared, seat, ticket);
    let output = serve(shared, seat, visitor);
    pass_on(shared, seat);
    output
}

// Takes a ticket that is not served at once, and visits the machine when it is.
#[inline(never)]
fn wait_and_visit<M: Machine, R: Wait, V: Visit<M>>(
    rt: &R,
    shared: &SharedTable<M>,
    seat: &mut TurnSeat<M>,
    visitor: V,
) -> Result<V::Output, TurnsSpent<V>>
    requires table { (seat.old.table_id ≡ shared.now.table_id) × IsTicketTable shared.now.table_id }
    requires idle { (seat.old.me.1 ≡ []) × IsPass M.goes seat.old.me.0 }
    requires ready { V.ready visitor }
    ensures table { (seat.new.table_id ≡ seat.old.table_id) × (seat.new.id ≡ seat.old.id)
        × (seat.new.me.1 ≡ []) }
    ensures pass { IsPass M.goes seat.new.me.0 }
    ensures ok { IfOk result (λ output. MadeVisit M.goes (V.makes visitor output) seat.old.me.0
        seat.new.me.0) }
    ensures err { IfErr result (λ e. (e.call ≡ visitor)
        × (seat.new.me.0 ≡ as_spent seat.old.me.0)) }
{
    let Some(ticket) = poll_for_ticket(rt, shared, seat) else {
        return Err(TurnsSpent { call: visitor });
    };
    let output = visit_later(rt, shared, seat, ticket, visitor);
    Ok(output)
}

// The machine in the contents of the slot.
fn machine_of<M: Machine>(slot: Option<CellContents<M, M::Call, M::Reply>>) -> M
    requires { (h : CellContents M M.Call M.Reply) × (slot ≡ Some h) }
    ensures { (h : CellContents M M.Call M.Reply) → slot ≡ Some h → result ≡ h.machine }
{
    let Some(held) = slot else { unreachable!() };
    let CellContents { machine, made: _ } = held;
    machine.into_machine()
}

// The result of closing a turn, from the two words of its table and the contents of the slot: the
// machine if each taken ticket was served, and otherwise these words. A machine in the slot is then
// dropped.
fn opened<M: Machine + Drop>(ticket: u64, serving: u64, slot: MachineCell<M>) -> Result<M, Busy>
    requires home { ticket ≡ serving → (h : CellContents M M.Call M.Reply) × (slot ≡ Some h) }
    ensures machine { IfOk result (λ m. (h : CellContents M M.Call M.Reply)
        → slot ≡ Some h → m ≡ h.machine) }
    ensures served { OnOk result (ticket ≡ serving) }
    ensures words { IfErr result (λ b. (b.ticket ≡ ticket) × (b.serving ≡ serving)) }
    ensures waiting { IfErr result (λ _. ticket ≢ serving) }
{
    if ticket != serving {
        return Err(Busy { ticket, serving });
    }
    Ok(machine_of(slot))
}

impl<M: Machine> Pass<M> {
    /// A theorem, for a caller that needs it later: the pass's list is legal from the opening
    /// state, and has, of each number that the pass holds, exactly that pass's calls. It does
    /// nothing at run time.
    pub fn prove_is_legal(&self)
        ensures { IsPass M.goes self.now.view }
    {
        // It names the field, since only then does the checker know the invariant of the type. It
        // reads nothing.
        let _ = &self.seat;
    }
}

impl<M: Machine> Turn<M> {
    /// A turn over the machine, and its first pass, which has seen nothing and made no call. The
    /// turn opens with the machine's state. `Memory`, which occurs only if an allocation failed,
    /// gives the machine back unchanged.
    pub fn new(alloc: Global, machine: M) -> Result<(Turn<M>, Pass<M>), Memory<M>>
        ensures table { IfOk result (λ t. t.1.table ≡ t.0.table) }
        ensures opening { IfOk result (λ t. t.0.opening ≡ M.view machine) }
        ensures first { IfOk result (λ t. t.1.view ≡ first_pass (M.view machine)) }
        ensures legal { IfOk result (λ t. IsPass M.goes t.1.view) }
        ensures err { IfErr result (λ e. e.machine ≡ machine) }
    {
        let about = Snapshot::of(&machine);
        let machine = BoxedMachine::holding(alloc, machine)?;
        let mut slots = Vec::new(alloc);
        if let Err(failed) = slots.push(Some(CellContents {
            machine,
            made: None,
        })) {
            let AllocFailed { value } = failed;
            slots.destroy_empty();
            return Err(Memory {
                machine: machine_of(value),
            });
        }
        match Table::new(alloc, &[0, 0], slots, &about) {
            Ok((table, seat)) => Ok((Turn { table }, Pass { seat })),
            Err(Refused { mut slots }) => {
                let Some(slot) = slots.pop() else {
                    unreachable!()
                };
                slots.destroy_empty();
                Err(Memory {
                    machine: machine_of(slot),
                })
            }
        }
    }

    /// A new pass, which has seen what this one has. It has a number of its own, of which that list
    /// has no operation, and no calls, and no pass was ended into it. It gets half of this pass's
    /// share of the right to close. This pass keeps the other half, and is otherwise unchanged.
    pub fn pass(&self, pass: &mut Pass<M>) -> Pass<M>
        requires { pass.old.table ≡ self.now.table }
        ensures half { pass.new.view ≡ halved pass.old.view }
        ensures stays { pass.new.table ≡ self.now.table }
        ensures table { result.table ≡ self.now.table }
        ensures given { (n : ℕ) × (result.view ≡ new_pass pass.old.view n)
            × (calls_by n pass.old.view.seen ≡ []) }
        ensures legal { IsPass M.goes result.view }
    {
        let mut seat = self.table.shared.split_seat::<GivePass>(&mut pass.seat);
        self.table.shared.load::<Become>(&mut seat, 0);
        Pass { seat }
    }

    /// What the pass has seen, for another to learn. The pass is unchanged.
    pub fn note(&self, pass: &mut Pass<M>) -> Note<M>
        requires { pass.old.table ≡ self.now.table }
        ensures same { pass.new ≡ pass.old }
        ensures table { result.table ≡ self.now.table }
        ensures given { result.view ≡ pass_note pass.old.view }
    {
        let seat = self.table.shared.split_seat::<GiveNote>(&mut pass.seat);
        Note { seat }
    }

    /// A note that has seen nothing, with the turn's opening state. It is for code that was given a
    /// turn and a pass: contracts then know that a pass that learns this note has that opening
    /// state.
    pub fn opening_note(&self) -> Note<M>
        ensures table { result.table ≡ self.now.table }
        ensures given { result.view ≡ pass_note (first_pass self.now.opening) }
    {
        let (_, seat) = self.table.shared.load_new_seat::<Come>(0);
        Note { seat }
    }

    /// Learns what the note has seen. Afterwards both the pass's earlier list and the note's list
    /// are prefixes of the pass's list, which may have further operations of other passes. Both
    /// have the same opening state. Its own calls and those that it holds stay. It is spent if it
    /// was.
    pub fn learn(&self, pass: &mut Pass<M>, note: Note<M>)
        requires { (pass.old.table ≡ self.now.table) × (note.table ≡ self.now.table) }
        ensures table { pass.new.table ≡ self.now.table }
        ensures seen { Learned M.goes pass.old.view note.view pass.new.view }
    {
        let Note { seat } = note;
        self.table.shared.join_seat::<Learn>(&mut pass.seat, seat);
        self.table.shared.load::<CatchUp>(&mut pass.seat, 0);
    }

    /// Ends the other pass into this one. This pass's list then begins with what both had seen, and
    /// it holds the other's number and calls, and those that the other held. All these numbers
    /// differ. Both have the same opening state. This pass's share of the right to close becomes
    /// the sum of both. Its own calls stay. It is spent if it was, whether the other was or not.
    pub fn end(&self, pass: &mut Pass<M>, other: Pass<M>)
        requires { (pass.old.table ≡ self.now.table) × (other.table ≡ self.now.table) }
        ensures table { pass.new.table ≡ self.now.table }
        ensures seen { Joined M.goes pass.old.view other.view pass.new.view }
    {
        let Pass { seat } = other;
        self.table.shared.join_seat::<End>(&mut pass.seat, seat);
        self.table.shared.load::<CatchUp>(&mut pass.seat, 0);
    }

    /// Visits the machine as [`Turn::visit`] does, if the turn is free at once. Otherwise the
    /// visitor comes back, which has not run, and the pass is unchanged. It does not wait.
    ///
    /// It is for callers that have more to do if they must wait: most visits wait for nobody, and
    /// such a caller's own slow way then takes no room beside this one.
    #[inline(always)]
    pub fn try_visit<V: Visit<M>>(&self, pass: &mut Pass<M>, visitor: V) -> Result<V::Output, V>
        requires table { pass.old.table ≡ self.now.table }
        requires ready { V.ready visitor }
        ensures table { pass.new.table ≡ self.now.table }
        ensures visited { IfOk result (λ output. MadeVisit M.goes (V.makes visitor output)
            pass.old.view pass.new.view) }
        ensures same { OnErr result (pass.new ≡ pass.old) }
        ensures given_back { IfErr result (λ back. back ≡ visitor) }
    {
        let shared = &self.table.shared;
        if !try_turn(shared, &mut pass.seat) {
            return Err(visitor);
        }
        let output = serve(shared, &mut pass.seat, visitor);
        pass_on(shared, &mut pass.seat);
        Ok(output)
    }

    /// Takes the next ticket, waits until it is served, lets the visitor have the machine and
    /// passes the turn on. It does most of its waiting before it takes the ticket, when it delays
    /// nobody.
    ///
    /// The visit is one operation of the history, by the call and the reply that say what the
    /// visitor did: the pass's list begins with the list that it had and ends with this operation,
    /// which is added to its own calls. A pass whose visitor was let in was not spent, and is not.
    ///
    /// `TurnsSpent`, which occurs only if this pass found `u64::MAX` in the ticket word, gives
    /// the visitor back, which has not run, adds no operation and leaves the pass unchanged except
    /// that it is spent. The waiting time is not specified: a visit may wait forever, for example if
    /// an earlier visitor never returns.
    pub fn visit<R: Wait, V: Visit<M>>(
        &self,
        rt: &R,
        pass: &mut Pass<M>,
        visitor: V,
    ) -> Result<V::Output, TurnsSpent<V>>
        requires table { pass.old.table ≡ self.now.table }
        requires ready { V.ready visitor }
        ensures table { pass.new.table ≡ self.now.table }
        ensures visited { IfOk result (λ output. MadeVisit M.goes (V.makes visitor output)
            pass.old.view pass.new.view) }
        ensures spent { IfErr result (λ e. pass.new.view ≡ as_spent pass.old.view) }
        ensures given_back { IfErr result (λ e. e.call ≡ visitor) }
    {
        match self.try_visit(pass, visitor) {
            Ok(output) => Ok(output),
            Err(visitor) => wait_and_visit(rt, &self.table.shared, &mut pass.seat, visitor),
        }
    }

    /// Makes a call, by a visitor that calls the machine and gives its reply.
    ///
    /// The reply is the machine's at this point of the history: the pass's list begins with the
    /// list that it had and ends with the call and its reply, which is added to its own calls. A
    /// pass that is answered was not spent, and is not.
    ///
    /// `TurnsSpent` occurs as at [`Turn::visit`]. It gives the call back, which the machine has not
    /// seen, adds no operation and leaves the pass unchanged except that it is spent. The waiting
    /// time is not specified: a call may wait forever, for example if an earlier call of the machine
    /// never returns.
    // Inlined, so that a machine that does something else for each kind of call need not test of
    // which kind a call is: at the place of the call that is known.
    #[inline(always)]
    pub fn call<R: Wait>(
        &self,
        rt: &R,
        pass: &mut Pass<M>,
        call: M::Call,
    ) -> Result<M::Reply, TurnsSpent<M::Call>>
        requires { pass.old.table ≡ self.now.table }
        ensures table { pass.new.table ≡ self.now.table }
        ensures called { IfOk result (λ r. Called M.goes pass.old.view call r pass.new.view) }
        ensures step { IfOk result (λ r. IsStep M.goes call r) }
        ensures spent { IfErr result (λ e. pass.new.view ≡ as_spent pass.old.view) }
        ensures given_back { IfErr result (λ e. e.call ≡ call) }
    {
        match self.visit(rt, pass, Calling { call }) {
            Ok(reply) => Ok(reply),
            Err(
                TurnsSpent {
                    call: Calling { call },
                },
            ) => Err(TurnsSpent { call }),
        }
    }

    /// Gives the machine back. Its state is one that a legal history reaches from the opening
    /// state. That history begins with the pass's list, and has no further operation of any number
    /// that the pass holds: it contains all calls of the passes that were ended into it.
    /// If the pass has the whole right to close, it holds the number of each operation: the
    /// history has no other calls.
    ///
    /// `Busy` occurs only if fewer tickets were served than were taken. Its words are those of a
    /// state that the rule of the turn allows, in which a pass knows what this one does: the
    /// history has one call for each served ticket. The turn and the pass are consumed, and a
    /// machine in the cell is dropped.
    ///
    /// A pass with the whole right to close gets the machine back: it is the only pass, so nobody
    /// waits. The first pass has the whole right, and has it again once all others were ended into
    /// it. [`Turn::pass`] gives half of a share away, and [`Turn::end`] adds the other's.
    pub fn close(self, pass: Pass<M>) -> Result<M, Busy>
    where
        M: Drop,
        requires { pass.table ≡ self.table }
        ensures last { IfOk result (λ m. IsLast M.goes self.opening pass.view (M.view m)) }
        ensures busy { IfErr result (λ b. b.serving < b.ticket) }
        ensures words { IfErr result (AreWords M.view M.goes self.opening pass.view) }
        ensures mark { IfErr result (MarkShows pass.view) }
        ensures whole { IsWhole pass.view.share → IsOk result }
    {
        let Turn { table } = self;
        let Pass { seat } = pass;
        let mut closed = table.close_with(seat);
        let ticket = closed.word(0);
        let serving = closed.word(1);
        let slot = closed.take(0);
        closed.free();
        let machine = opened(ticket, serving, slot)?;
        Ok(machine)
    }
}
