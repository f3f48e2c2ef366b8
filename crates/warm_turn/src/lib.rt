//! A machine that threads share by tickets; its calls form one history.
//!
//! A [`Machine`] answers calls one after the other. A [`Turn`] lets any number of threads call one
//! machine: each call takes the next ticket, waits until it is served, has exclusive use of the
//! machine, and passes the turn on. A call takes a ticket when the ticket will be served at once,
//! or after it has polled for such a moment a bounded number of times. A thread calls with a
//! [`Pass`] of its own, in which contracts see what it knows: a list of calls and replies that some
//! run of the machine has from the opening state, which contains the pass's own calls once each, in
//! their order, with the replies that were given.
//!
//! - [`Turn::new`] gives the turn and its first pass, and [`Turn::pass`] splits a pass off another.
//! - [`Turn::call`] makes a call. Its list begins with all that the pass had seen and ends with it.
//! - [`Turn::visit`] lets a [`Visit`] have the machine itself for one turn. The visitor says by a
//!   call and a reply what it did, and the visit stands in the list as that call.
//!   [`Turn::try_visit`] does so if it need not wait, and else gives the visitor back.
//! - By [`Turn::note`] and [`Turn::learn`] one pass learns what another has seen, and [`Turn::end`]
//!   ends a pass into another. Both lists begin the new one.
//! - [`Turn::opening_note`] is for code that was given a turn and a pass: contracts then know that
//!   the pass that learns it has the turn's opening state.
//! - [`Turn::close`] gives the machine back, in a state that such a history reaches. Each pass has a
//!   share of the right to close, and one with the whole right is never refused.
//!
//! It is a ticket lock (D. P. Reed and R. K. Kanodia, "Synchronization with Eventcounts and
//! Sequencers", CACM 1979; J. M. Mellor-Crummey and M. L. Scott, "Algorithms for Scalable
//! Synchronization on Shared-Memory Multiprocessors", ACM TOCS 1991), proved for any machine. All
//! calls have one total order, which is legal, and which respects the order of each pass and every
//! hand-over between passes: calls are sequentially consistent, and causal between passes that met.
//! The order in time of others, which linearizability would add (M. P. Herlihy and J. M. Wing, ACM
//! TOPLAS 1990), is not specified. Nor are progress, fairness and waiting times, and an operation
//! does not prove that its caller still runs.
//!
//! Passes, notes and turns may cross threads if the machine may: for a function that is generic in
//! `M: Machine + Send` the lemmas are in `proofs/SendLemmas.antt`. Lemmas on what calls, notes and
//! ends say of a pass are in `proofs/PassLemmas.antt`, and lemmas on shares in
//! `proofs/ShareLemmas.antt`.
#![tactic(auto)]

mod counter;
mod fault;
pub mod laws;
mod plays;
mod table;
mod turn;
mod visit;
mod waiting;

pub use counter::{Add, Added, Counter};
pub use fault::{Busy, Memory, TurnsSpent};
pub use table::CallMade;
pub use turn::{Note, Pass, Turn};
pub use visit::{Visit, Visited};
pub use warm_machine::Machine;
