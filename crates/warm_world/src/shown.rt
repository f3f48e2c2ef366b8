//! The history in an answer.
ghost use Rattle.std.specs.Prelude.{◌≡◌, IfOk};

use std::alloc::{AllocError, Global};
use std::marker::Model;
use warm_history::History;

/// A history in a heap box: a pointer, whereas a [`History`] contains the roots of its 64 maps,
/// some 3 KB. Contracts see the history.
#[derive(Debug, Drop)]
pub struct ShownHistory {
    history: Box<History>,
}

impl Model for ShownHistory {
    ghost use Rattle.warm_history.specs.Histories.{HistoryView};

    ghost Value = { HistoryView };

    ghost view = { λ shown. shown.history.value };
}

impl ShownHistory {
    /// The history, moved to a box that is allocated here.
    ///
    /// `AllocError` occurs only if that allocation fails. The history is then dropped.
    pub fn new(alloc: Global, history: History) -> Result<ShownHistory, AllocError>
        ensures { IfOk result (λ shown. shown ≡ history) }
    {
        let history = Box::new(alloc, history)?;
        Ok(ShownHistory { history })
    }

    /// The history. Allocation-free.
    pub fn as_history(&self) -> &History
        ensures { result.now ≡ self.now }
    {
        &self.history
    }
}
