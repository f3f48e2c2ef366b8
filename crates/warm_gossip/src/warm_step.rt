//! Warming up a node's pool, a page at a time.
ghost use Rattle.std.specs.Prelude.{◌≡◌, ◌↔◌, ◌<◌, ◌++◌, [], length, map, None, IfOk, IfErr};
ghost use Rattle.std.specs.Prelude.{IsTrue, OnErr, OnOk};
ghost use Rattle.warm_history.specs.Histories.{IsHistory};
ghost use Rattle.warm_rank.specs.Keys.{ranked_page};
ghost use Rattle.warm_rank.specs.Relisting.{AreHottest};
ghost use Rattle.warm_gossip.specs.declared.call.Call.TheVariants.{WarmStep};
ghost use Rattle.warm_gossip.specs.declared.call.Reply.TheVariants.{Loaded};
ghost use Rattle.warm_pool.specs.View.{view_of};
ghost use Rattle.warm_gossip.specs.Clauses.{Answered, DevicesAnswered};
ghost use Rattle.warm_gossip.specs.declared.fault.NodeFault.TheVariants.{Memory};
ghost use Rattle.warm_gossip.specs.State.{node_view};
ghost use Rattle.warm_gossip.specs.Step.{IsLoadable, IsNextWarm, nth_page};
ghost use Rattle.warm_gossip.specs.WarmingUp.{IsListed, IsPast, IsWarming, Notes, PassedAtLoad};
ghost use Rattle.warm_gossip.specs.WarmingUp.{PassedAtFill, PassedAtNext, PassedAtPin};

use crate::fault::NodeFault;
use crate::node::Node;
use std::alloc::{AllocError, Global};
use std::cmp::Ordering;
use warm_devices::PageDevice;
use warm_frames::MAX_ENTRIES;
use warm_history::History;
use warm_history::laws::prove_is_history;
use warm_pool::{NamesPage, Pool};
use warm_rank::{HotPages, eviction_order};
use warm_stamps::PageId;

// How many pages may be noted as changed, until a list is dropped: those of four full messages.
const MAX_CHANGED: usize = 4 * MAX_ENTRIES;

/// The progress of a warm-up: the hottest pages, hottest first, as many as the pool has frames,
/// if the list is cached; the pages of which references came since it was made; and how many of
/// the list are passed. None of the passed pages could be loaded: each is resident, or no device
/// has it.
#[derive(Drop)]
pub(crate) struct WarmUp {
    pub(crate) list: Option<HotPages>,
    pub(crate) changed: Vec<PageId>,
    pub(crate) passed: usize,
}

impl WarmUp {
    /// A warm-up that has not begun. Allocation-free.
    pub(crate) fn new(alloc: Global) -> WarmUp
        ensures { result.list ≡ None }
    {
        WarmUp {
            list: None,
            changed: Vec::new(alloc),
            passed: 0,
        }
    }

    /// Notes the pages to which references came. The next step looks these up, and keeps the rest
    /// of the list. If a list is cached and there is no room for them, it is dropped: that step
    /// then makes a new one. Room is allocated with the list, so this is allocation-free.
    pub(crate) fn note<T: NamesPage>(&mut self, alloc: Global, items: &[T])
        ensures { Notes (map T.named items.now) self.old self.new }
    {
        let Some(_) = &self.list else {
            return;
        };
        if has_room(&self.changed, items.len()) {
            if let Ok(()) = add_pages(&mut self.changed, items) {
                return;
            }
        }
        *self = WarmUp::new(alloc);
    }
}

// Whether this many more pages may be noted.
fn has_room(changed: &[PageId], more: usize) -> bool {
    more <= MAX_CHANGED && changed.len() <= MAX_CHANGED - more
}

// Adds the pages that these items name.
fn add_pages<T: NamesPage>(changed: &mut Vec<PageId>, items: &[T]) -> Result<(), AllocError>
    ensures { OnOk result (changed.new.items ≡ changed.old.items ++ map T.named items.now) }
{
    for item in items {
        changed.push(item.named())?;
    }
    Ok(())
}

impl<D: PageDevice> Node<D> {
    /// Loads the hottest page that is not resident and that a device has, among as many of the
    /// hottest as the pool has frames, and returns it; `None` if there is none: the call
    /// `WarmStep`. A standby calls it until it returns `None`, before the standby takes over.
    ///
    /// The list of these pages is made at the first step, at the cost of [`Node::warm_list`], and
    /// cached. A step that finds it current is allocation-free, and looks up pages from the page at
    /// which the last step stopped until it finds one to load. So a whole warm-up looks up each
    /// page once, provided that no passed page is evicted: after a pin that evicts a page, or a
    /// step that evicts a page of the list, the next step begins with the hottest page again.
    ///
    /// After references came, the next step ranks the pages that they name, and merges these into
    /// the list ([`HotPages::relisted`]): it does not read the rest of the history. It begins with
    /// the hottest page. After more than 4,000 references, a join with a history, a message with a
    /// later horizon, a horizon that drops a stamp, or a restart, the next step makes a new list.
    ///
    /// # Errors
    /// `Memory`: an allocation for the list of the hottest pages failed; the next step tries again.
    /// `Pool`, with the fault and the order of [`warm_pool::Pool::load`]. Pages, pin counts and
    /// contents are unchanged.
    pub fn warm_step(&mut self) -> Result<Option<PageId>, NodeFault>
        ensures step { Answered self.old WarmStep Loaded result self.new }
        ensures devices { DevicesAnswered self.old WarmStep Loaded result self.new }
    {
        let history = self.peer.history();
        // The list is over the references that the history holds: their history is this history.
        prove_is_history(history);
        let list = take_list(self.alloc, &mut self.warm_up, history, &self.pool)?;
        let at = first_loadable(&self.pool, &list, self.warm_up.passed);
        self.warm_up.passed = at;
        if at >= list.len() {
            self.warm_up.list = Some(list);
            return Ok(None);
        }
        let page = list.page(at);
        self.warm_up.list = Some(list);
        let placed = self.pool.load_placed(page, self.peer.history())?;
        self.warm_up.passed = passed_at_load(self.peer.history(), at, page, placed.evicted);
        Ok(Some(page))
    }

    /// The page that [`Node::warm_step`] would load now; `None` if there is none. Nothing is
    /// loaded. So a program that reads pages by itself warms the pool up: it reads this page, pins
    /// it by [`Node::pin_filled`], and removes the pin. That is the warm-up step, unless another
    /// call came in between ([`crate::laws::filled_pin_is_a_warm_step`]).
    ///
    /// The list of pages is made and kept as for `warm_step`.
    ///
    /// # Errors
    /// `Memory`: an allocation for the list of the hottest pages failed; the next call tries again.
    pub fn warm_next(&mut self) -> Result<Option<PageId>, NodeFault>
        ensures same { self.new ≡ self.old }
        ensures next { IfOk result (λ page. IsNextWarm (node_view self.old) page) }
        ensures refused { IfErr result (λ why. why ≡ Memory) }
    {
        let history = self.peer.history();
        // The list is over the references that the history holds: their history is this history.
        prove_is_history(history);
        let list = take_list(self.alloc, &mut self.warm_up, history, &self.pool)?;
        let passed = self.warm_up.passed;
        let at = first_loadable(&self.pool, &list, passed);
        self.warm_up.passed = at;
        if at >= list.len() {
            self.warm_up.list = Some(list);
            return Ok(None);
        }
        let next = list.page(at);
        self.warm_up.list = Some(list);
        Ok(Some(next))
    }
}

// The list of the warm-up, which is put back after use: the cached one, with the changed pages
// merged in; or else a new one, of which none is passed.
fn take_list<D: PageDevice>(
    alloc: Global,
    warm_up: &mut WarmUp,
    history: &History,
    pool: &Pool<D>,
) -> Result<HotPages, AllocError>
    requires whole { IsHistory history.now }
    requires warming { IsWarming history.now (view_of pool.now) warm_up.old }
    ensures listed { IfOk result (λ list.
        IsListed history.now (view_of pool.now) [] list warm_up.new.passed) }
    ensures current { OnOk result (warm_up.new.changed.items ≡ []) }
    ensures kept { OnErr result (IsWarming history.now (view_of pool.now) warm_up.new) }
{
    let frames = pool.frames();
    let Some(list) = warm_up.list.take() else {
        let list = new_list(alloc, warm_up, history, frames)?;
        return Ok(list);
    };
    if warm_up.changed.is_empty() {
        return Ok(list);
    }
    match list.relisted(alloc, history, frames, &warm_up.changed) {
        Ok(relisted) => {
            warm_up.changed.clear();
            warm_up.passed = 0;
            Ok(relisted)
        }
        Err(refused) => {
            warm_up.list = Some(list);
            Err(refused)
        }
    }
}

// A new list, and room for the pages that may change while it is cached.
fn new_list(
    alloc: Global,
    warm_up: &mut WarmUp,
    history: &History,
    frames: usize,
) -> Result<HotPages, AllocError>
    requires { warm_up.old.list ≡ None }
    ensures hottest { IfOk result (λ list. AreHottest history.now frames list) }
    ensures begins { OnOk result (warm_up.new.passed ≡ 0) }
    ensures current { OnOk result (warm_up.new.changed.items ≡ []) }
    ensures none { warm_up.new.list ≡ None }
{
    let changed = Vec::with_capacity(alloc, MAX_CHANGED)?;
    let list = HotPages::of(alloc, history, frames)?;
    warm_up.changed = changed;
    warm_up.passed = 0;
    Ok(list)
}

// The index of the first page that could be loaded, from an index before which none could; the
// number of pages if none could.
fn first_loadable<D: PageDevice>(pool: &Pool<D>, list: &HotPages, passed: usize) -> usize
    requires { IsPast (map ranked_page list.now) passed (view_of pool.now) }
    ensures past { IsPast (map ranked_page list.now) result (view_of pool.now) }
    ensures there { result < length list.now
        → IsLoadable (view_of pool.now) (nth_page (map ranked_page list.now) result) }
{
    let len = list.len();
    for at in passed..len {
        if is_loadable(pool, list.page(at)) {
            return at;
        }
    }
    len
}

// Whether a device has the page, and it is in no frame.
fn is_loadable<D: PageDevice>(pool: &Pool<D>, page: PageId) -> bool
    ensures { IsTrue result ↔ IsLoadable (view_of pool.now) page }
{
    pool.has(page) && !pool.resident(page)
}

// The number of passed pages after this page, which has the index `at`, was loaded: it is passed
// too, unless it evicted one of those before it. Pages before it in the list leave after it.
fn passed_at_load(history: &History, at: usize, page: PageId, evicted: Option<PageId>) -> usize
    requires { at < usize.MAX }
    ensures { PassedAtLoad history.now page evicted at result }
{
    let Some(evicted) = evicted else {
        return at + 1;
    };
    // The order is over the references that the history holds: their history is this history.
    prove_is_history(history);
    match eviction_order(history, evicted, page) {
        Ordering::Less => at + 1,
        Ordering::Equal | Ordering::Greater => 0,
    }
}

/// The number of pages that are still passed after a pin: 0 if it evicted a page, which may be
/// one of them.
pub(crate) fn passed_at_pin(passed: usize, evicted: Option<PageId>) -> usize
    ensures { PassedAtPin evicted passed result }
{
    match evicted {
        Some(_) => 0,
        None => passed,
    }
}

/// The number of pages that are still passed after a pin of a page whose bytes were given. A
/// program that warms the pool up pins the next page of the list so: it is then passed, as after a
/// load.
pub(crate) fn passed_at_fill(
    history: &History,
    warm_up: &WarmUp,
    page: PageId,
    evicted: Option<PageId>,
) -> usize
    ensures { PassedAtFill history.now warm_up.now page evicted result }
{
    let Some(evicted) = evicted else {
        return warm_up.passed;
    };
    if !warm_up.changed.is_empty() {
        return 0;
    }
    match &warm_up.list {
        Some(list) => passed_at_next(history, list, warm_up.passed, page, evicted),
        None => 0,
    }
}

// The same of a pin that evicted a page, if a list is kept. Its first `at` pages are passed.
fn passed_at_next(
    history: &History,
    list: &HotPages,
    at: usize,
    page: PageId,
    evicted: PageId,
) -> usize
    ensures { PassedAtNext history.now list.now at page evicted result }
{
    if at >= list.len() {
        return 0;
    }
    if list.page(at) != page {
        return 0;
    }
    passed_at_load(history, at, page, Some(evicted))
}
