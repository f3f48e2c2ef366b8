//! Laws of visits. Each function changes nothing: its contract is a theorem, which
//! `specs/Laws.antt` states in full. What a visit does that nobody interrupts is a law of
//! `warm_shards`.
ghost use Rattle.warm_visits.specs.Laws.{ErrandsAreOwn, MadeStaysOfItsKind};
ghost use Rattle.warm_visits.specs.Laws.{TakenAreTheAnswer, WholeIsGiven};

/// Once a visit is over, its errands together gave the batch, the horizon, the message or the
/// history, whatever others did between two of them.
pub fn visit_gives_the_whole()
    ensures { WholeIsGiven }
{}

/// Each errand of a visit is at a shard, and of its pages and buckets alone; so are those of what
/// it becomes, whatever others do between two entries.
pub fn errands_are_own()
    ensures { ErrandsAreOwn }
{}

/// A visit that offers has always made an offer, and one that copies a copy, however far it went.
pub fn made_stays_of_its_kind()
    ensures { MadeStaysOfItsKind }
{}

/// The messages that were taken out of an answer as they were made are, with those that are left,
/// the answer.
pub fn taken_are_the_answer()
    ensures { TakenAreTheAnswer }
{}
