//! Schedules played by threads: one for each worker, and then an exchange between all replicas.
//!
//! [`play_threads`] reads a schedule of references and flushes whole, has a thread for each worker
//! of each replica carry out that worker's lines, has the replicas exchange their whole histories,
//! and prints the history of each. docs/FORMATS.md defines the lines and the output.
//!
//! - `reading` reads a schedule whole, `ask` a line of it, and `plan` makes the jobs of the
//!   workers.
//! - `work` runs the workers' jobs, over a machine behind a turn; `exchange` has a replica send and
//!   receive, and calls the machine directly. Both are generic in the machine.
//! - `runs` does both for all replicas at once, and `play` puts all together. `fault` says why they
//!   fail.
#![tactic(auto)]

mod ask;
mod exchange;
mod fault;
mod plan;
mod play;
mod reading;
mod runs;
mod work;

pub use play::play_threads;
