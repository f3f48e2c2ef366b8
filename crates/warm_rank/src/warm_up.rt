//! The pages to load first.
ghost use Rattle.std.specs.Prelude.{◌≡◌, ◌<◌, ◌++◌, length, map, reverse, IfOk, IsPermutation};
ghost use Rattle.std.specs.Prelude.{◌↔◌, [], ◌∷◌, IsSorted, IsTrue, OnOk};
ghost use Rattle.warm_history.specs.Histories.{IsHistory, references_of};
ghost use Rattle.warm_stamps.specs.Stamps.{page_cmp};
ghost use Rattle.warm_rank.specs.Greatest.{AreGreatest};
ghost use Rattle.warm_rank.specs.Keys.{entry_key, key_cmp, ranked_page};
ghost use Rattle.warm_rank.specs.Relisting.{AreHottest, AreHottestOfKeys, WereHottest};
ghost use Rattle.warm_rank.specs.Relisting.{greatest_keys, is_among, keys_of_others, listed_page};
ghost use Rattle.warm_rank.specs.Relisting.{named_keys};
ghost use Rattle.warm_rank.specs.WarmUp.{IsWarmUp, entry_keys};

use crate::flat_key::FlatKey;
use std::alloc::{AllocError, Global};
use std::marker::Model;
use warm_history::laws::prove_is_history;
use warm_history::{Entry, History, Unordered};
use warm_stamps::PageId;

/// The warm-up list: the `n` pages of a history that are evicted last, the hottest first; all pages
/// if it has fewer.
///
/// Time grows with the number of pages, and with `n log n`.
///
/// # Errors
/// `AllocError` if the allocation of a key for each page, or of the list, fails.
pub fn warm_list(alloc: Global, history: &History, n: usize) -> Result<Vec<PageId>, AllocError>
    ensures { IfOk result (λ pages. IsWarmUp history.now n pages.items) }
{
    let hot = HotPages::of(alloc, history, n)?;
    pages_of(alloc, &hot.keys)
}

/// A warm-up list with the ranks of its pages, so that it can follow a history that takes in
/// references. Contracts see the list of the keys, that of the hottest page first.
#[derive(Debug, Drop)]
pub struct HotPages {
    keys: Vec<FlatKey>,
}

impl Model for HotPages {
    ghost use Rattle.std.specs.Prelude.{List};
    ghost use Rattle.warm_rank.specs.declared.RankKey.{RankKey};

    ghost Value = { List RankKey };

    ghost view = { λ hot. hot.keys.items };
}

impl HotPages {
    /// The `n` hottest pages of a history, or all if it has fewer.
    ///
    /// Time grows with the number of pages, and with `n log n`.
    ///
    /// # Errors
    /// `AllocError` if the allocation of a key for each page, or of the list, fails.
    pub fn of(alloc: Global, history: &History, n: usize) -> Result<HotPages, AllocError>
        ensures { IfOk result (λ hot. AreHottest history.now n hot) }
    {
        let mut all = keys_of(alloc, history)?;
        let keys = hottest_keys(alloc, &mut all, n)?;
        Ok(HotPages { keys })
    }

    /// The `n` hottest pages of a history that has taken in references since this list was made of
    /// it. Each page that they name is among `changed`, which may have others, and may repeat some.
    ///
    /// Each changed page is looked up in the history. The others are not: they keep their ranks. So
    /// for `c` changed pages of `p` in all, time grows with `(n + c) log c` and `c log p`.
    ///
    /// # Errors
    /// `AllocError` if an allocation fails: lists of the changed pages, and of the keys of all that
    /// may be hottest, and room in which to sort these.
    pub fn relisted(
        &self,
        alloc: Global,
        history: &History,
        n: usize,
        changed: &[PageId],
    ) -> Result<HotPages, AllocError>
        requires { WereHottest history.now n changed.now self.now }
        ensures { IfOk result (λ hot. AreHottest history.now n hot) }
    {
        let pages = sorted_pages(alloc, changed)?;
        let mut candidates = others(alloc, &self.keys, &pages)?;
        // What a look-up gives is over the references that the history holds.
        prove_is_history(history);
        add_named(&mut candidates, history, &pages)?;
        let keys = falling(candidates, n)?;
        Ok(HotPages { keys })
    }

    /// The number of pages. Allocation-free.
    pub fn len(&self) -> usize
        ensures { result ≡ length self.now }
    {
        self.keys.len()
    }

    /// Whether there is no page. Allocation-free.
    pub fn is_empty(&self) -> bool
        ensures { IsTrue result ↔ self.now ≡ [] }
    {
        self.len() == 0
    }

    /// The page with this number, counted from 0, which is the hottest. Allocation-free.
    pub fn page(&self, at: usize) -> PageId
        requires { at < length self.now }
        ensures { result ≡ listed_page self.now at }
    {
        self.keys[at].page()
    }
}

// The keys of all entries, in any order.
fn keys_of(alloc: Global, history: &History) -> Result<Vec<FlatKey>, AllocError>
    ensures { IfOk result (λ keys. IsPermutation (entry_keys history.now) keys.items) }
{
    keys_of_entries(alloc, history.len(), history.unordered())
}

// The keys of entries; capacity for `count` of them is allocated first.
fn keys_of_entries(
    alloc: Global,
    count: usize,
    entries: Unordered<'_>,
) -> Result<Vec<FlatKey>, AllocError>
    ensures { IfOk result (λ keys. keys.items ≡ map entry_key entries.entry) }
{
    let mut keys = Vec::with_capacity(alloc, count)?;
    for entry in entries {
        keys.push(FlatKey::of_entry(entry))?;
    }
    Ok(keys)
}

// The keys of the hottest pages, from the keys of a history's entries, in any order. If fewer than
// all are requested, the rest is partitioned off first and never sorted.
fn hottest_keys(alloc: Global, keys: &mut [FlatKey], n: usize) -> Result<Vec<FlatKey>, AllocError>
    ensures { IfOk result (λ hot. AreHottestOfKeys keys.old n hot.items) }
{
    if n < keys.len() {
        return descending_keys(alloc, greatest(keys, n));
    }
    descending_keys(alloc, keys)
}

// The n greatest items, in any order.
fn greatest<K: Ord>(items: &mut [K], n: usize) -> &mut [K]
    requires { n < length items.old }
    ensures { AreGreatest K.cmp items.old n result.now }
{
    let next = items.len() - 1 - n;
    let (_, _, top) = items.select_nth_unstable(next);
    top
}

// The keys, the greatest first; they are sorted.
fn descending_keys(alloc: Global, keys: &mut [FlatKey]) -> Result<Vec<FlatKey>, AllocError>
    ensures same_keys { IsPermutation keys.old keys.new }
    ensures sorted { IsSorted key_cmp keys.new }
    ensures turned { IfOk result (λ descending. descending.items ≡ reverse keys.new) }
{
    keys.sort_unstable();
    keys.iter().rev().copied().collect(alloc)
}

// The pages of keys, in their order.
fn pages_of(alloc: Global, keys: &[FlatKey]) -> Result<Vec<PageId>, AllocError>
    ensures { IfOk result (λ pages. pages.items ≡ map ranked_page keys.now) }
{
    keys.iter().map(|key| key.page()).collect(alloc)
}

// A copy of these pages, sorted.
fn sorted_pages(alloc: Global, pages: &[PageId]) -> Result<Vec<PageId>, AllocError>
    ensures same_pages { IfOk result (λ sorted. IsPermutation pages.now sorted.items) }
    ensures sorted { IfOk result (λ sorted. IsSorted page_cmp sorted.items) }
{
    let mut sorted = Vec::from_slice(alloc, pages)?;
    sorted.sort_unstable();
    Ok(sorted)
}

// The keys of other pages than these, which are sorted; in their order.
fn others(alloc: Global, keys: &[FlatKey], pages: &[PageId]) -> Result<Vec<FlatKey>, AllocError>
    requires { IsSorted page_cmp pages.now }
    ensures { IfOk result (λ others. others.items ≡ keys_of_others pages.now keys.now) }
{
    let mut others = Vec::with_capacity(alloc, keys.len())?;
    for key in keys {
        push_other(&mut others, pages, *key)?;
    }
    Ok(others)
}

// Adds a key, unless its page is one of these, which are sorted.
fn push_other(others: &mut Vec<FlatKey>, pages: &[PageId], key: FlatKey) -> Result<(), AllocError>
    requires { IsSorted page_cmp pages.now }
    ensures { OnOk result (others.new.items
        ≡ others.old.items ++ keys_of_others pages.now (key ∷ [])) }
{
    if is_among(pages, key.page()) {
        return Ok(());
    }
    others.push(key)?;
    Ok(())
}

// Whether a page is one of these, which are sorted.
fn is_among(pages: &[PageId], page: PageId) -> bool
    requires { IsSorted page_cmp pages.now }
    ensures { result ≡ is_among pages.now page }
{
    match pages.binary_search(&page) {
        Ok(_) => true,
        Err(_) => false,
    }
}

// Adds the keys of those of these pages that the history knows.
fn add_named(keys: &mut Vec<FlatKey>, history: &History, pages: &[PageId]) -> Result<(), AllocError>
    requires { IsHistory history.now }
    ensures { OnOk result (keys.new.items
        ≡ keys.old.items ++ named_keys (references_of history.now) pages.now) }
{
    for page in pages {
        push_named(keys, history, *page)?;
    }
    Ok(())
}

// Adds the key of a page, if the history knows it.
fn push_named(keys: &mut Vec<FlatKey>, history: &History, page: PageId) -> Result<(), AllocError>
    requires { IsHistory history.now }
    ensures { OnOk result (keys.new.items
        ≡ keys.old.items ++ named_keys (references_of history.now) (page ∷ [])) }
{
    let Some(hist) = history.get(page) else {
        return Ok(());
    };
    keys.push(FlatKey::of_entry(Entry { page, hist }))?;
    Ok(())
}

// The n greatest of the keys, each once, the greatest first. Keys that fall for the most part are
// sorted by a merge: the sort finds their runs.
fn falling(mut keys: Vec<FlatKey>, n: usize) -> Result<Vec<FlatKey>, AllocError>
    ensures { IfOk result (λ falling. falling.items ≡ greatest_keys keys.items n) }
{
    keys.sort()?;
    keys.dedup();
    keys.reverse();
    keys.truncate(n);
    Ok(keys)
}
