//! The input of a run of the program `warmplay`, and how the run ends.
//!
//! [`command_of`] reads the words of the command line, [`read_setup`] and [`read_setup_file`] the
//! text of a setup file, and [`outcome_of`] gives the exit status and the line on standard error of
//! a run. docs/FORMATS.md has the program's words, the setup's keys, and the endings.
#![tactic(auto)]

mod command;
mod outcome;
mod path;
mod setup;

pub use command::{Cmd, CmdFault, MAX_EVENTS, command_of, non_utf8_argument};
pub use outcome::{ErrorLine, ProgramFault, RunOutcome, outcome_of};
pub use path::PathText;
pub use setup::{
    DeviceSpec, MAX_LISTED_DEVICES, MAX_PAGES, SetupFault, read_setup, read_setup_file,
};
