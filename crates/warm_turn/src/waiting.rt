//! Taking a ticket, and waiting until it is served.
//!
//! Both are tried once without waiting, which is enough if nobody else uses the machine. What
//! polls and sleeps may wait, and each call of a function that may costs a look at a flag.
ghost use Rattle.std.specs.Prelude.{◌≡◌, ◌+◌, ◌<◌, ◌^◌, true, false, [], IfSome, IfNone, IsTrue};
ghost use Rattle.warm_turn.specs.CallHistories.{IsPass, as_spent};
ghost use Rattle.warm_turn.specs.Rule.{IsTicketTable};
ghost use Rattle.warm_turn.specs.Steps.{HasTicket, HasTurn, HasMachine};

use crate::plays::{Forget, Glance, Look, Seize, Take};
use crate::table::{SharedTable, TurnSeat};
use std::hint::spin_loop;
use std::sync::Wait;
use std::time::Duration;
use warm_machine::Machine;

// How often a waiting caller polls before it sleeps between polls. It spins in between, twice as
// long each time, 255 spin hints in all, which is less than a context switch takes: a poll takes
// the words' cache line from the caller that is served, so frequent polls would slow down short
// calls.
const SPINS: u32 = 8;

// How often a caller sleeps before it takes a ticket that is not served at once, so that it does
// not starve: with naps of 50 to 800 microseconds, after 6.8 ms.
const NAPS: u32 = 16;

// How often a caller without a ticket polls. Then it takes one anyway.
const LOOKS: u32 = SPINS + NAPS;

// The first sleep of a caller between two polls, in microseconds, if the serving word has not
// changed.
const NAP: u64 = 50;

// The sleep of a caller without a ticket after this many polls, in microseconds: a little longer
// each time, so that many waiting callers do not wake too often.
fn longer_nap(looks: u32) -> u64 {
    let naps = looks.saturating_sub(SPINS);
    if naps < NAPS {
        NAP * u64::from(naps + 1)
    } else {
        NAP * u64::from(NAPS)
    }
}

// Waits between two polls; `looks` polls were made, and `nap` bounds the sleep. The last poll found
// that the ticket `served` is served.
fn pause<M: Machine, R: Wait>(rt: &R, shared: &SharedTable<M>, served: u64, looks: u32, nap: u64)
    requires { IsTicketTable shared.now.table_id }
{
    if looks < SPINS {
        for _ in 0..1u32 << looks {
            spin_loop();
        }
    } else {
        let low = (served & 0xFFFF_FFFF) as u32;
        shared.park_timeout(rt, 1, low, Duration::from_micros(nap));
    }
}

// The ticket to try for, after the ticket word was seen to be `next`. The last number is no ticket:
// then it is 0, with which the exchange fails and finds the last number. A peek is no step at the
// table, so it proves nothing. The exchange is one: by it alone the seat finds that it is spent.
fn tried_for(next: u64) -> u64
    ensures { result + 1 < 2 ^ 64 }
{
    if next == u64::MAX { 0 } else { next }
}

// Takes the next ticket and the machine, if the turn is free at once. It does not wait.
//
// The serving word never falls, and is never greater than the ticket word. So a ticket that was
// seen to be served is served when it is taken, and no look follows. A ticket word that is not equal
// is not tried, since an exchange takes the words' cache line from the caller that is served.
#[inline(always)]
pub(crate) fn try_turn<M: Machine>(shared: &SharedTable<M>, seat: &mut TurnSeat<M>) -> bool
    requires table { (seat.old.table_id ≡ shared.now.table_id) × IsTicketTable shared.now.table_id }
    requires idle { (seat.old.me.1 ≡ []) × IsPass M.goes seat.old.me.0 }
    ensures table { (seat.new.table_id ≡ seat.old.table_id) × (seat.new.id ≡ seat.old.id) }
    ensures turn { IsTrue result → HasTurn M.view seat.old.me.0 seat.new.me }
    ensures same { result ≡ false → seat.new.me ≡ seat.old.me }
{
    let next = shared.peek(0);
    let served = shared.load::<Glance>(seat, 1);
    if served != next || served == u64::MAX {
        shared.load::<Forget>(seat, 0);
        return false;
    }
    let found = shared.compare_exchange::<Seize>(seat, 0, served, served + 1);
    if found != served {
        return false;
    }
    true
}

// Takes a ticket, or finds the last number in the ticket word.
//
// It waits before it takes a ticket rather than after: a descheduled caller with a ticket delays
// all callers with later ones, and a caller without a ticket delays nobody. After many polls it
// takes one anyway, so that it does not starve.
pub(crate) fn poll_for_ticket<M: Machine, R: Wait>(
    rt: &R,
    shared: &SharedTable<M>,
    seat: &mut TurnSeat<M>,
) -> Option<u64>
    requires table { (seat.old.table_id ≡ shared.now.table_id) × IsTicketTable shared.now.table_id }
    requires idle { IsPass M.goes seat.old.me.0 }
    ensures table { (seat.new.table_id ≡ seat.old.table_id) × (seat.new.id ≡ seat.old.id) }
    ensures some { IfSome result (λ k. HasTicket seat.old.me k seat.new.me) }
    ensures none { IfNone result (seat.new.me ≡ (as_spent seat.old.me.0, seat.old.me.1)) }
{
    let mut looks = 0;
    for _ in rt.forever() {
        let next = shared.peek(0);
        let served = shared.peek(1);
        if looks < LOOKS && next != served {
            pause(rt, shared, served, looks, longer_nap(looks));
            looks += 1;
        } else {
            let expected = tried_for(next);
            let found = shared.compare_exchange::<Take>(seat, 0, expected, expected + 1);
            if found == expected {
                return Some(found);
            }
            if found == u64::MAX {
                return None;
            }
        }
    }
    unreachable!()
}

// Waits until the ticket is served. Then the seat has the machine. The next caller sleeps as the
// others do, and does not yield: on busy processors a yield gives up a whole time slice, for which
// all callers behind it would wait too.
pub(crate) fn poll_for_turn<M: Machine, R: Wait>(
    rt: &R,
    shared: &SharedTable<M>,
    seat: &mut TurnSeat<M>,
    ticket: u64,
)
    requires table { (seat.old.table_id ≡ shared.now.table_id) × IsTicketTable shared.now.table_id }
    requires waits { (seat.old.me.1 ≡ []) × (seat.old.me.0.waits ≡ true)
        × (seat.old.me.0.serves ≡ false) × (seat.old.me.0.ticket ≡ ticket) }
    ensures table { (seat.new.table_id ≡ seat.old.table_id) × (seat.new.id ≡ seat.old.id) }
    ensures serves { HasMachine M.view seat.old.me.0 seat.new.me }
{
    let mut looks = 0u32;
    for _ in rt.forever() {
        let served = shared.load::<Look>(seat, 1);
        if served == ticket {
            return;
        }
        pause(rt, shared, served, looks, NAP);
        looks = looks.saturating_add(1);
    }
}
