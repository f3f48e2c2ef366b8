//! Ranks in half the room, for the slots of a contest and for a warm-up list.
//!
//! A [`RankKey`] has 56 bytes: each replica number has 64 bits, and so has the number that says how
//! many stamps are known. A match reads two keys, and mostly the first 16 bytes of each. A warm-up
//! list sorts a key of each page.
ghost use Rattle.std.specs.Prelude.{◌≡◌, IfSome, cond};
ghost use Rattle.std.specs.declared.cmp.Ordering.TheVariants.{Greater, Less};
ghost use Rattle.warm_stamps.specs.Replicas.{IsReplica};
ghost use Rattle.warm_stamps.specs.Stamps.{stamp_at};
ghost use Rattle.warm_rank.specs.declared.RankKey.TheVariants.{Never, Once, Twice};
ghost use Rattle.warm_rank.specs.FlatKeys.{fields_cmp};
ghost use Rattle.warm_rank.specs.Keys.{entry_key, key_cmp, ranked_page};
ghost use Rattle.warm_rank.specs.contracts.RankKeyPartialEq.TheImpl.Laws as equality;
ghost use Rattle.warm_rank.specs.contracts.RankKeyEq.TheImpl.Laws as equivalence;
ghost use Rattle.warm_rank.specs.contracts.RankKeyPartialOrd.TheImpl.Laws as partial_order;
ghost use Rattle.warm_rank.specs.contracts.RankKeyOrd.TheImpl.Laws as order;

use crate::RankKey;
use std::cmp::Ordering;
use std::marker::Model;
use warm_history::{Entry, PageHist};
use warm_stamps::{PageId, ReplicaId, Stamp};

// The fields of a rank, in 32 bytes without padding: a move would copy a padded value in pieces.
// The older stamp is the only one if the page has one. A stamp that isn't known is 0.
#[derive(Debug, Clone, Copy)]
struct Fields {
    older_time: u64,
    stamps: u16,
    older_replica: u16,
    later_replica: u16,
    dev: u16,
    later_time: u64,
    no: u64,
}

/// The rank of a page. Contracts see it as the [`RankKey`].
#[derive(Debug, Clone, Copy)]
pub(crate) struct FlatKey {
    fields: Fields,
}

impl Model for FlatKey {
    ghost use Rattle.warm_rank.specs.declared.RankKey.{RankKey};
    ghost use Rattle.warm_rank.specs.FlatKeys.{AreFields, fields_of, key_of_fields};

    ghost Value = { RankKey };

    ghost view = { λ k. key_of_fields k.fields };

    ghost invariant = { λ k. AreFields k.fields };

    ghost inverse = { λ key. record { fields = fields_of key } };

    ghost inverse_ok = { λ k are i. record { fields = are.again i } };
}

// Contracts see keys as ranks. So keys compare as ranks do, by the same laws.
impl PartialEq for FlatKey {
    ghost eq = { ⟦<RankKey as PartialEq>⟧.eq };

    ghost laws = { equality.laws-law };

    fn eq(&self, other: &FlatKey) -> bool {
        self.cmp(other).is_eq()
    }
}

impl Eq for FlatKey {
    ghost laws = { equivalence.laws-law };
}

impl PartialOrd for FlatKey {
    ghost partial_cmp = { ⟦<RankKey as PartialOrd>⟧.partial_cmp };

    ghost laws = { partial_order.laws-law };

    fn partial_cmp(&self, other: &FlatKey) -> Option<Ordering> {
        Some(self.cmp(other))
    }
}

impl Ord for FlatKey {
    ghost cmp = { ⟦<RankKey as Ord>⟧.cmp };

    ghost total = { order.total-law };

    ghost matches_partial_cmp = { order.matches_partial_cmp-law };

    ghost matches_eq = { order.matches_eq-law };

    fn cmp(&self, other: &FlatKey) -> Ordering {
        self.compare(other)
    }
}

impl FlatKey {
    /// The same rank.
    pub(crate) fn of(key: RankKey) -> FlatKey
        ensures { result ≡ key }
    {
        match key {
            RankKey::Never { page } => never(page),
            RankKey::Once { last, page } => once(last, page),
            RankKey::Twice { prev, last, page } => twice(prev, last, page),
        }
    }

    /// The rank of an entry's page.
    // Made without a `RankKey` between: a warm-up list makes one for each page of a history.
    #[inline(always)]
    pub(crate) fn of_entry(entry: Entry) -> FlatKey
        ensures { result ≡ entry_key entry }
    {
        let Entry { page, hist } = entry;
        match hist {
            PageHist::Once(last) => once(last, page),
            PageHist::Twice(two) => {
                let prev = two.prev();
                let last = two.last();
                twice(prev, last, page)
            }
        }
    }

    /// The rank that is lent out.
    pub(crate) fn get(self) -> RankKey
        ensures { result ≡ self }
    {
        let fields = self.fields;
        let page = PageId {
            dev: fields.dev,
            no: fields.no,
        };
        if fields.stamps == 0 {
            return RankKey::Never { page };
        }
        let older = stamp_at(fields.older_time, fields.older_replica);
        if fields.stamps == 1 {
            return RankKey::Once { last: older, page };
        }
        let last = stamp_at(fields.later_time, fields.later_replica);
        RankKey::Twice {
            prev: older,
            last,
            page,
        }
    }

    /// The page whose rank this is.
    pub(crate) fn page(self) -> PageId
        ensures { result ≡ ranked_page self }
    {
        PageId {
            dev: self.fields.dev,
            no: self.fields.no,
        }
    }

    /// Whether this rank comes after another, if the older times alone decide. Their order cannot
    /// be predicted, and this answer is computed without a branch.
    pub(crate) fn is_after_by_time(&self, other: &FlatKey) -> Option<bool>
        ensures { IfSome result (λ is_after.
            key_cmp self.now other.now ≡ cond is_after Greater Less) }
    {
        let (a, b) = (&self.fields, &other.fields);
        if a.stamps != b.stamps || a.older_time == b.older_time {
            return None;
        }
        Some(a.older_time > b.older_time)
    }

    /// The order of two ranks.
    pub(crate) fn compare(&self, other: &FlatKey) -> Ordering
        ensures { result ≡ key_cmp self.now other.now }
    {
        compare_fields(&self.fields, &other.fields)
    }
}

// The rank of a page without a known reference.
fn never(page: PageId) -> FlatKey
    ensures { result ≡ Never page }
{
    let fields = Fields {
        older_time: 0,
        stamps: 0,
        older_replica: 0,
        later_replica: 0,
        dev: page.dev,
        later_time: 0,
        no: page.no,
    };
    FlatKey { fields }
}

// The rank of a page with one known reference.
fn once(last: Stamp, page: PageId) -> FlatKey
    ensures { result ≡ Once last page }
{
    let fields = Fields {
        older_time: last.time,
        stamps: 1,
        older_replica: last.replica.get(),
        later_replica: 0,
        dev: page.dev,
        later_time: 0,
        no: page.no,
    };
    FlatKey { fields }
}

// The rank of a page with two known references or more.
fn twice(prev: Stamp, last: Stamp, page: PageId) -> FlatKey
    ensures { result ≡ Twice prev last page }
{
    let fields = Fields {
        older_time: prev.time,
        stamps: 2,
        older_replica: prev.replica.get(),
        later_replica: last.replica.get(),
        dev: page.dev,
        later_time: last.time,
        no: page.no,
    };
    FlatKey { fields }
}

// The stamp of a time and the number of a replica.
fn stamp_at(time: u64, replica: u16) -> Stamp
    requires { IsReplica replica }
    ensures { result ≡ stamp_at time replica }
{
    let Ok(replica) = ReplicaId::new(replica) else {
        unreachable!()
    };
    Stamp { time, replica }
}

// The order of the fields of two ranks. Mostly the older times decide.
fn compare_fields(a: &Fields, b: &Fields) -> Ordering
    ensures { result ≡ fields_cmp a.now b.now }
{
    if a.stamps != b.stamps {
        return a.stamps.cmp(&b.stamps);
    }
    if a.older_time != b.older_time {
        return a.older_time.cmp(&b.older_time);
    }
    if a.older_replica != b.older_replica {
        return a.older_replica.cmp(&b.older_replica);
    }
    if a.later_time != b.later_time {
        return a.later_time.cmp(&b.later_time);
    }
    if a.later_replica != b.later_replica {
        return a.later_replica.cmp(&b.later_replica);
    }
    if a.dev != b.dev {
        return a.dev.cmp(&b.dev);
    }
    a.no.cmp(&b.no)
}
