//! Schedules, under the specification's names: reading a line, playing a schedule line by line or
//! by threads, drawing one at random, and the setup and the command line of the program `warmplay`.
//!
//! It has no code of its own. Lines and the player are those of `warm_player`, plays by threads
//! those of `warm_threads`, setups and commands those of `warm_setup`.
#![tactic(auto)]

pub use warm_player::{Line, LineFault, parse_line, play, random_schedule};
pub use warm_setup::{Cmd, CmdFault, DeviceSpec, PathText, SetupFault, command_of, read_setup};
pub use warm_threads::play_threads;
pub use warm_world::PlayFault;
