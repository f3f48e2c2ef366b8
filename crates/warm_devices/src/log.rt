//! A log that is asked before each write.
ghost use Rattle.std.specs.Prelude.{ℕ, List, Result};
ghost use Rattle.warm_devices.specs.declared.log.NotYet.{NotYet};

use thiserror::Error;

/// The log isn't durable yet as far as a page needs it: the page must not be written.
#[derive(Clone, Copy, PartialEq, Eq, Debug, Error)]
#[error("NotYet")]
pub struct NotYet;

/// A log that is asked before each write of a page ("write-ahead").
pub trait PageLog: Drop {
    /// What the log answers to being asked for a page with these bytes, and what it then is. A log
    /// of which nothing is to be proved takes a relation that always holds.
    ghost answers: { Self → ℕ → List ℕ → Result (Unit {0}) NotYet → Self → Type 0 };

    /// Whether page `no` may be written now with these bytes. It is called before each write of a
    /// page, so a log may use the call to make itself durable.
    ///
    /// # Errors
    /// `NotYet` if it isn't durable as far as these bytes need it.
    fn before_write(&mut self, no: u64, bytes: &[u8]) -> Result<(), NotYet>
        ensures { answers self.old no bytes.now result self.new };
}
