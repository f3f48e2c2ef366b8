//! The laws of dumps, over the definitions alone.
//!
//! Each function does nothing. Its contract is a theorem, which the crates above cite and a reader
//! can look up: `specs/Laws.antt` states each in full.
ghost use Rattle.warm_dump.specs.Laws.{DumpReadsBack, DumpHasOneHistory, DumpIsTaken};
ghost use Rattle.warm_dump.specs.Laws.{ChangedDumpIsSeen};

/// What is written of a history is a dump of it.
pub fn dump_reads_back()
    ensures { DumpReadsBack }
{}

/// No bytes are dumps of two histories.
pub fn one_history()
    ensures { DumpHasOneHistory }
{}

/// Of a dump no fault is reported but `Frame(Memory)` and `ReadFault`.
pub fn dump_is_taken()
    ensures { DumpIsTaken }
{}

/// Two dumps with one horizon and the same digests are of one history, or two texts of one bucket
/// have one SHA-256.
pub fn changed_dump_is_seen()
    ensures { ChangedDumpIsSeen }
{}
