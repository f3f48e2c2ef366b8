//! Laws of peers: the chunks in which a bucket is answered, and a round of gossip.
//!
//! Each function changes nothing. Its contract is a theorem, which the crates above cite and a
//! reader can look up: the files of `specs/` that the clauses name state it in full. Most are about
//! the definitions alone. Those that take a peer give the premises of the others, and their
//! conclusions, for that peer.
ghost use Rattle.std.specs.List.{AllByRecursion};
ghost use Rattle.warm_frames.specs.Entries.{IsEntry, IsHist};
ghost use Rattle.warm_digest.specs.Exchange.{Fits};
ghost use Rattle.warm_peer.specs.Chunks.{ChunksInTurn};
ghost use Rattle.warm_peer.specs.Round.{EntriesBringAll, GossipRoundEnds, HistoryRoundJoins};
ghost use Rattle.warm_peer.specs.Round.{OwnDigestsUnanswered, PeersJoin};

use crate::peer::Peer;
use warm_history::laws::{prove_is_history, prove_stamps_descend};
use warm_history::{Entry, PageHist, Unordered};

/// The chunks in which a bucket of a history is answered to digests or to a request are what
/// [`Peer::send`] gives of that bucket, one after the other: the first without a page to come after,
/// each next after the last page of the one before, until no page is left. So each carries all
/// references to its pages, for all references that the history stands for.
pub fn chunks_in_turn()
    ensures { ChunksInTurn }
{}

/// A round of gossip: a replica offers the digests of its history to another, and each receives all
/// answers of the other, until both have answered. Afterwards both histories have the entries of
/// the join of the two before. The second has the join's horizon, the later one; the first has it
/// if the second answered the offer. Or two different texts of one bucket, one of each replica,
/// have the same SHA-256 digest: that of the second replica at the later horizon.
pub fn gossip_round_joins()
    ensures { HistoryRoundJoins }
{}

/// A round of gossip ends after both have answered: the last messages get no answer.
pub fn gossip_round_ends()
    ensures { GossipRoundEnds }
{}

/// A replica answers nothing to the digests of its own history: a round of a replica with itself is
/// only its offer.
pub fn own_digests_unanswered()
    ensures { OwnDigestsUnanswered }
{}

/// A replica that receives a message of a history's entries has then received all references for
/// which that history stands.
pub fn entries_bring_all()
    ensures { EntriesBringAll }
{}

/// The numbers in a peer's history are within their widths, as the types of its entries imply. It
/// scans the entries once, and is allocation-free.
pub fn peer_fits(peer: &Peer)
    ensures { Fits peer.now.history }
{
    prove_entries(peer.history().unordered());
}

/// [`gossip_round_joins`] for two given peers, of any round that they then have. It scans the
/// entries of both once, and is allocation-free.
pub fn peers_join(one: &Peer, other: &Peer)
    ensures { PeersJoin one.now other.now }
{
    prove_is_history(one.history());
    prove_is_history(other.history());
    peer_fits(one);
    peer_fits(other);
}

// What the types of entries imply of them.
fn prove_entries(entries: Unordered<'_>)
    ensures { AllByRecursion IsEntry entries.entry }
{
    for entry in entries {
        prove_entry(entry);
    }
}

fn prove_entry(entry: Entry)
    ensures { IsEntry entry }
{
    prove_hist(entry.hist);
}

fn prove_hist(hist: PageHist)
    ensures { IsHist hist }
{
    if let PageHist::Twice(two) = hist {
        prove_stamps_descend(two);
    }
}
