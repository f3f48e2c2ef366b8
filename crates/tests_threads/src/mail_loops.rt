//! Loops over mail in threads of their own, and two of them that answer each other.
use crate::mail::{
    boxed, brings, brings_entries, brings_request, channel_of, digest_of, entry_at, mailed,
    outbox_of, report,
};
use crate::setup::{comes, fresh_node, node_of, turn_and_worker};
use crossbeam_channel::{Receiver, Sender};
use std::alloc::Global;
use std::process::Abort;
use std::sync::atomic::{AtomicU64, Ordering};
use std::sync::{Arc, Wait};
use std::thread::{self, Threads};
use std::time::Clock;
use test_kit::{NARROW, entry, page, twice};
use warm_replica::{BatchMachine, Mail, MailLoop, MailReport, Outbox, run_mail_loops};

// The counts of two machines of their mail, each in a thread of its own, until each has received a
// Stop or this many items. Each is given with its mail and its outboxes.
fn heard_by_both<M: BatchMachine + Drop + Send, R: Threads + Wait + Abort + Sync>(
    rt: &R,
    alloc: Global,
    (first, to_first, of_first): (M, Receiver<Mail>, Vec<Outbox>),
    (second, to_second, of_second): (M, Receiver<Mail>, Vec<Outbox>),
    turns: u64,
) -> (MailReport, MailReport) {
    let (first, one) = turn_and_worker(rt, alloc, first);
    let (second, two) = turn_and_worker(rt, alloc, second);
    let mut loops = Vec::with_capacity(alloc, 2).expect(rt, "memory for two loops");
    loops.push_reserved(MailLoop::new(&first, one, to_first, of_first));
    loops.push_reserved(MailLoop::new(&second, two, to_second, of_second));
    ended(rt, alloc, loops, turns)
}

// The counts of two mail loops.
fn ended<M: BatchMachine + Drop + Send, R: Threads + Wait + Abort + Sync>(
    rt: &R,
    alloc: Global,
    loops: Vec<MailLoop<'_, M>>,
    turns: u64,
) -> (MailReport, MailReport) {
    let heard = run_mail_loops(rt, alloc, loops, 1, turns).expect(rt, "threads");
    match heard.as_slice() {
        [(_, one), (_, two)] => (*one, *two),
        _ => panic!(rt; "two loops end"),
    }
}

// The counts of two nodes: one receives entries and a byte that is not a message, the other entries
// and digests, whose two answers reach these outboxes.
fn heard_by_nodes<R: Threads + Wait + Abort + Sync>(
    rt: &R,
    alloc: Global,
    boxes: Vec<Outbox>,
) -> (MailReport, MailReport) {
    let text = digest_of(rt, alloc, 9, 0);
    let to_first = mailed(rt, alloc, &[&NARROW, &[0]]);
    let to_second = mailed(rt, alloc, &[&NARROW, text.as_slice()]);
    heard_by_both(
        rt,
        alloc,
        (fresh_node(rt, alloc), to_first, Vec::new(alloc)),
        (fresh_node(rt, alloc), to_second, boxes),
        10,
    )
}

#[test]
fn two_replicas_take_their_mail_in_threads(rt: HostRuntime) {
    let alloc = rt.alloc();
    let (boxes, receiver) = outbox_of(&rt, alloc, 9);
    let (one, two) = heard_by_nodes(&rt, alloc, boxes);
    let answer = [entry(page(7), twice((20, 1), (10, 1)))];
    assert!(rt; one == report(1, 1, 0) && two == report(2, 0, 0));
    assert!(rt; brings_entries(&rt, alloc, &receiver, &answer));
    assert!(rt; brings_request(&rt, alloc, &receiver, 128) && !brings(&rt, &receiver));
}

// Both ends of a channel.
type Ends = (Sender<Mail>, Receiver<Mail>);

// A channel that brings an entry, and the digests of a replica without a history.
fn asked<R: Wait + Abort>(rt: &R, alloc: Global, no: u8, number: u16) -> Ends {
    let text = digest_of(rt, alloc, number, 0);
    channel_of(rt, alloc, &[&entry_at(0, no, 10), text.as_slice()])
}

// Sends a Stop to both if the flag is not set in time, so that a loop also ends whose mail is never
// sent.
fn stop_late<R: Wait + Clock>(
    rt: &R,
    flag: &AtomicU64,
    first: &Sender<Mail>,
    second: &Sender<Mail>,
) {
    if !comes(rt, flag, 1) {
        let _ = first.send(rt, Mail::Stop);
        let _ = second.send(rt, Mail::Stop);
    }
}

// The counts of replicas 1 and 2, which answer each other until each has received five items or a
// Stop.
fn heard_in_turn<R: Threads + Wait + Abort + Sync>(
    rt: &R,
    alloc: Global,
    (to_first, first): Ends,
    (to_second, second): Ends,
) -> (MailReport, MailReport) {
    heard_by_both(
        rt,
        alloc,
        (node_of(rt, alloc, 1), first, boxed(rt, alloc, 2, to_second)),
        (node_of(rt, alloc, 2), second, boxed(rt, alloc, 1, to_first)),
        5,
    )
}

// Each receives an entry and digests, and then the answers of the other: entries, a request, and
// entries for its own request. If one ran to its end before the other started, a late Stop would
// end it, and its counts would be lower.
#[test]
fn two_mail_loops_answer_each_other(rt: HostRuntime) {
    let alloc = rt.alloc();
    let first = asked(&rt, alloc, 1, 2);
    let second = asked(&rt, alloc, 2, 1);
    let flag = Arc::new(alloc, AtomicU64::new(0)).expect(&rt, "memory for a flag");
    let ended = Arc::try_clone(&flag).expect(&rt, "one owner more");
    let clock = rt.clone().expect(&rt, "a runtime more");
    let one = first.0.clone().expect(&rt, "one sender more");
    let two = second.0.clone().expect(&rt, "one sender more");
    let late = thread::spawn(&rt, move || stop_late(&clock, &flag, &one, &two))
        .ok()
        .expect(&rt, "a thread");
    let (one, two) = heard_in_turn(&rt, alloc, first, second);
    ended.store(1, Ordering::SeqCst);
    late.join(&rt);
    assert!(rt; one == report(5, 0, 0) && two == report(5, 0, 0));
}
