//! Why a file was not replaced.

use std::io;
use thiserror::Error;

/// What was being done.
#[derive(Clone, Copy, Debug, PartialEq, Eq, Error)]
pub enum FileStep {
    /// Finding out what the path names: a folder, a device or anything else that is no regular
    /// file is not replaced.
    #[error("cannot replace it")]
    Target,
    /// Opening the folder that the file is in.
    #[error("cannot open its folder")]
    Folder,
    /// Making the draft.
    #[error("cannot make a new file in its folder")]
    Create,
    /// Syncing the draft.
    #[error("cannot sync the new file")]
    Sync,
    /// Renaming the draft over the old file.
    #[error("cannot rename the new file over it")]
    Rename,
    /// Syncing the folder. The new file is in place, but a loss of power may bring the old one
    /// back.
    #[error("the new file is in place, but its folder cannot be synced")]
    SyncFolder,
}

/// A step that failed, and why.
#[derive(Debug, Drop, Error)]
#[error("{step}: {error}")]
pub struct StoreFault {
    /// What was being done.
    pub step: FileStep,
    /// The system's error.
    pub error: io::Error,
}
