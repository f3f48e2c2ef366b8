//! The call that the README of `warm_rank` shows.
use anyhow::Result;
use std::alloc::Global;
use std::cmp::Ordering;
use std::process::Abort;
use test_kit::{history_of, page};
use warm_rank::{Contest, eviction_order, key_of, warm_list};

fn one_call(rt: &impl Abort, alloc: Global) -> Result<()> {
    let given = [(0, 1, 1, 1), (0, 1, 100, 1), (0, 2, 50, 1), (0, 2, 60, 1)];
    let history = history_of(alloc, &given)?; // of test_kit: device, page, time, replica
    let (first, second) = (page(1), page(2));
    assert!(rt; eviction_order(&history, first, second) == Ordering::Less); // 0:1 leaves first
    let hottest = warm_list(alloc, &history, 1)?;
    assert!(rt; hottest.first().copied() == Some(second));
    let mut contest = Contest::new(alloc, 2)?;
    contest.set(0, Some(key_of(second, history.get(second))));
    contest.set(1, Some(key_of(first, history.get(first))));
    assert!(rt; contest.least() == Some(1)); // the slot of the victim
    Ok(())
}

#[test]
fn one_call_of_warm_rank(rt: HostRuntime) {
    assert!(rt; one_call(&rt, rt.alloc()).is_ok());
}
