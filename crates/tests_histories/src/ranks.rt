//! Which pages leave first by a history, the contest that finds the least key, and the list of a
//! warm-up.
ghost use Rattle.std.specs.Prelude.{◌≡◌, ◌<◌, ◌≤◌, length};
ghost use Rattle.warm_rank.specs.declared.TheConstants.{MAX_FRAMES};

use crate::rows::row_holds;
use std::alloc::Global;
use std::cmp::Ordering;
use std::process::Abort;
use test_kit::{history_of, once, page, seen, twice};
use warm_history::History;
use warm_rank::{Contest, RankKey, eviction_order, key_of, warm_list};
use warm_stamps::{PageId, PageList};

fn leaves_first(history: &History, first: u64, second: u64) -> bool {
    match eviction_order(history, page(first), page(second)) {
        Ordering::Less => true,
        _ => false,
    }
}

// Whether these are the `n` hottest pages of a history.
fn are_hottest(
    rt: &impl Abort,
    alloc: Global,
    history: &History,
    n: usize,
    want: &[PageId],
) -> bool {
    let pages = PageList::of(warm_list(alloc, history, n).expect(rt, "memory for a list"));
    pages.as_slice() == want && pages.into_vec().len() == want.len()
}

// Which of two pages leaves first as the horizon rises: both were referenced twice, then once, and
// then never.
#[test]
fn a_raised_horizon_changes_which_page_leaves(rt: HostRuntime) {
    let given = [(0, 1, 1, 1), (0, 1, 100, 1), (0, 2, 50, 1), (0, 2, 60, 1)];
    let mut history = history_of(rt.alloc(), &given).expect(&rt, "memory for a history");
    assert!(rt; leaves_first(&history, 1, 2));
    assert!(rt; are_hottest(&rt, rt.alloc(), &history, 0, &[]));
    for n in [2, usize::MAX] {
        assert!(rt; are_hottest(&rt, rt.alloc(), &history, n, &[page(2), page(1)]));
    }
    history.raise(60);
    assert!(rt; leaves_first(&history, 2, 1));
    assert!(rt; are_hottest(&rt, rt.alloc(), &history, 2, &[page(1), page(2)]));
    history.raise(101);
    assert!(rt; leaves_first(&history, 1, 2));
    assert!(rt; are_hottest(&rt, rt.alloc(), &history, 2, &[]));
}

// Sets the keys of that many slots, rising.
fn set_rising(contest: &mut Contest, slots: u32)
    requires { length contest.old ≡ slots }
    ensures { length contest.new ≡ slots }
{
    for slot in 0..slots {
        contest.set(slot as usize, Some(key_of(page(u64::from(slot)), None)));
    }
}

// Keys rise with the slots, so the first slot that has one has the least.
fn rises(rt: &impl Abort, alloc: Global, slots: u32) -> bool
    requires some { 0 < slots }
    requires few { slots ≤ MAX_FRAMES }
{
    let mut contest = Contest::new(alloc, slots as usize).expect(rt, "memory for slots");
    set_rising(&mut contest, slots);
    let first = contest.least();
    contest.set(0, None);
    let next = if slots == 1 { None } else { Some(1) };
    first == Some(0) && contest.least() == next
}

// A contest of one slot more cannot be called for, since `new` requires at most 65,536.
#[test]
fn contest_has_any_number_of_slots(rt: HostRuntime) {
    for slots in [1, 2, 3, 65_535, 65_536u32] {
        row_holds(&rt, slots as usize, rises(&rt, rt.alloc(), slots));
    }
}

// Sets or clears the key of one of three slots.
fn set_of_three(contest: &mut Contest, slot: usize, key: Option<RankKey>)
    requires three { length contest.old ≡ 3 }
    requires one { slot < 3 }
    ensures { length contest.new ≡ 3 }
{
    contest.set(slot, key);
}

// The key of 0:5, referenced once.
fn key_of_5() -> Option<RankKey> {
    Some(key_of(page(5), Some(once(10, 1))))
}

// A contest of the keys of 0:1 with stamps 2@1 and 1@1, of 0:5 with 10@1, and of 0:6 with 11@1: the
// least is cleared until none is left. Then one key is in two slots.
#[test]
fn the_least_of_three_keys_is_found(rt: HostRuntime) {
    let mut contest = Contest::new(rt.alloc(), 3).expect(&rt, "memory for slots");
    let referenced_twice = key_of(page(1), Some(twice((2, 1), (1, 1))));
    set_of_three(&mut contest, 0, Some(referenced_twice));
    set_of_three(&mut contest, 1, key_of_5());
    set_of_three(&mut contest, 2, Some(key_of(page(6), Some(once(11, 1)))));
    assert!(rt; contest.least() == Some(1));
    set_of_three(&mut contest, 1, None);
    assert!(rt; contest.least() == Some(2));
    set_of_three(&mut contest, 2, None);
    assert!(rt; contest.least() == Some(0));
    set_of_three(&mut contest, 0, None);
    assert!(rt; contest.least() == None);
    set_of_three(&mut contest, 0, key_of_5());
    set_of_three(&mut contest, 2, key_of_5());
    assert!(rt; contest.least() == Some(0));
}

// Sets the key of one of three slots, if it is less.
fn lower_of_three(contest: &mut Contest, slot: usize, key: Option<RankKey>)
    requires three { length contest.old ≡ 3 }
    requires one { slot < 3 }
    ensures { length contest.new ≡ 3 }
{
    contest.lower(slot, key);
}

// A slot without a key takes that of 0:5 with 10@1. Then neither the same page with 11@1 nor no key
// is less, and the same page without a stamp is.
#[test]
fn only_a_lesser_key_is_taken(rt: HostRuntime) {
    let mut contest = Contest::new(rt.alloc(), 3).expect(&rt, "memory for slots");
    lower_of_three(&mut contest, 1, key_of_5());
    assert!(rt; contest.is_set(1) && !contest.is_set(0));
    lower_of_three(&mut contest, 1, Some(key_of(page(5), Some(once(11, 1)))));
    lower_of_three(&mut contest, 1, None);
    assert!(rt; contest.key(1) == key_of_5());
    lower_of_three(&mut contest, 1, Some(key_of(page(5), None)));
    assert!(rt; contest.key(1) == Some(key_of(page(5), None)));
    assert!(rt; contest.least() == Some(1));
}

// The history of this number of pages from 0 on, each referenced once at the time of its number.
fn long_history(rt: &impl Abort, alloc: Global, pages: u64) -> History {
    let mut batch = Vec::new(alloc);
    for no in 0..pages {
        batch
            .push(seen(page(no), no, 1))
            .expect(rt, "memory for a reference");
    }
    let mut history = History::new(alloc);
    history.absorb(&batch).expect(rt, "memory for a history");
    history
}

// Whether the pages' numbers fall by one from the first page's on.
fn fall_from(pages: &[PageId], first: u64) -> bool {
    let mut want = first;
    for listed in pages {
        if listed.no != want {
            return false;
        }
        want = want.wrapping_sub(1);
    }
    true
}

// Pages that were referenced once each leave in the order of their stamps.
#[test]
fn warm_up_lists_10_000_pages(rt: HostRuntime) {
    let history = long_history(&rt, rt.alloc(), 10_001);
    let pages = warm_list(rt.alloc(), &history, 10_000).expect(&rt, "memory for a list");
    assert!(rt; pages.len() == 10_000);
    assert!(rt; fall_from(&pages, 10_000));
}
