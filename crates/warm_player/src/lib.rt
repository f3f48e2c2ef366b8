//! Schedules: lines of text that are the events of a world of warm-standby replicas, and the player
//! that answers them.
//!
//! [`parse_line`] reads one line, and [`parse_worker_line`] one that is a request to a worker.
//! [`play`] reads a whole schedule from any reader and writes the answers to any writer, each as
//! [`print_answer`] prints it, and [`random_schedule`] writes a schedule that a seed gives.
//! docs/FORMATS.md has the language, line by line.
#![tactic(auto)]

mod commands;
mod fields;
pub mod laws;
mod parse;
mod player;
mod printer;
mod random;
mod text;
mod worker;

pub use parse::{Line, LineFault, MAX_LINE, parse_line};
pub use player::{MAX_READS, READ_SIZE, play};
pub use printer::{print_answer, print_bad_line, print_end_refused, print_history};
pub use random::random_schedule;
pub use text::first_line;
pub use worker::{NotForWorker, WorkerRequest, parse_worker_line};
