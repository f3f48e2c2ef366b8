//! A primary and a standby in one program, each with its own buffer pool over a device in memory.
//!
//! The primary uses its working set, and then scans the table once. Messages, sent as bytes, bring
//! its references to the standby, until both histories are equal. The standby is restarted from a
//! dump of its history, loads the hottest pages, and takes over. A cold standby, which knows
//! nothing, makes the same accesses: both print how many pages they read. Then a page is written
//! to, another is filled in place, and the standby shuts down in an orderly way. Each refusal is an
//! error, and `?` returns it.
#![tactic(auto)]

use anyhow::{Result, bail};
use std::alloc::Global;
use std::io::Print;
use warm_devices::MemDevice;
use warm_dump::{read_dump, write_dump};
use warm_frames::{decode, encode};
use warm_gossip::Node;
use warm_pool::Pool;
use warm_stamps::{PageId, Reference, ReplicaId, Stamp};

// The number of frames of each pool, and the page size in bytes.
const FRAMES: usize = 4;

const PAGE_SIZE: usize = 16;

// The pages that are used again and again: as many as there are frames.
const WORKING_SET: [u64; 4] = [1, 2, 3, 4];

// The pages of a scan, each of which is used once.
const SCAN: [u64; 8] = [10, 11, 12, 13, 14, 15, 16, 17];

// The accesses after the takeover.
const AFTER: [u64; 6] = [2, 4, 1, 3, 2, 1];

// The maximum number of gossip rounds. If all messages arrive, one round makes them equal.
const MAX_ROUNDS: u32 = 3;

// A page of device 0.
const fn page(no: u64) -> PageId {
    PageId { dev: 0, no }
}

// A node without references, with a pool over a device of 64 pages.
fn opened(alloc: Global, number: u16) -> Result<Node<MemDevice>> {
    let device = MemDevice::new(alloc, 64, PAGE_SIZE)?;
    let mut devices = Vec::with_capacity(alloc, 1)?;
    devices.push_reserved(device);
    let pool = Pool::new(alloc, FRAMES, PAGE_SIZE, devices)?;
    Ok(Node::new(alloc, ReplicaId::new(number)?, pool))
}

// A reference to each of these pages, one after the other, from a time on.
fn refer(alloc: Global, node: &mut Node<MemDevice>, from: u64, pages: &[u64]) -> Result<()> {
    let replica = node.id();
    let mut batch = Vec::with_capacity(alloc, pages.len())?;
    let mut time = from;
    for no in pages {
        batch.push(Reference {
            page: page(*no),
            stamp: Stamp { time, replica },
        })?;
        time = time.wrapping_add(1);
    }
    node.absorb(&batch)?;
    Ok(())
}

// Accesses these pages one after the other, from a time on: each is pinned, referenced and
// unpinned, since a pin is no reference. Returns how many of them were read from the device.
fn access(alloc: Global, node: &mut Node<MemDevice>, from: u64, pages: &[u64]) -> Result<u32> {
    let mut reads: u32 = 0;
    let mut time = from;
    for no in pages {
        if !node.pool().resident(page(*no)) {
            reads = reads.wrapping_add(1);
        }
        let slot = node.pin(page(*no))?;
        refer(alloc, node, time, &[*no])?;
        node.unpin(slot)?;
        time = time.wrapping_add(1);
    }
    Ok(reads)
}

// Delivers a message's bytes to a node, and returns those of its answers.
fn deliver(alloc: Global, node: &mut Node<MemDevice>, bytes: &[u8]) -> Result<Vec<Vec<u8>>> {
    let message = decode(alloc, bytes)?;
    let answers = node.receive(message)?;
    let mut all = Vec::new(alloc);
    for answer in answers.as_slice() {
        all.push(encode(alloc, answer)?)?;
    }
    Ok(all)
}

// Delivers each of these messages to a node, and returns the bytes of all its answers.
fn deliver_all(
    alloc: Global,
    node: &mut Node<MemDevice>,
    sent: &[Vec<u8>],
) -> Result<Vec<Vec<u8>>> {
    let mut answered = Vec::new(alloc);
    for bytes in sent {
        answered.append(&mut deliver(alloc, node, bytes)?)?;
    }
    Ok(answered)
}

// Rounds of gossip until the second has nothing to answer to the digests of the first: then both
// have the same entries. Returns the number of rounds.
fn make_equal(
    alloc: Global,
    first: &mut Node<MemDevice>,
    second: &mut Node<MemDevice>,
) -> Result<u32> {
    for round in 0..MAX_ROUNDS {
        let digests = encode(alloc, &first.offer()?)?;
        let entries_and_want = deliver(alloc, second, &digests)?;
        if entries_and_want.is_empty() {
            return Ok(round);
        }
        let wanted = deliver_all(alloc, first, &entries_and_want)?;
        let _none = deliver_all(alloc, second, &wanted)?;
    }
    bail!("the histories still differ")
}

// The dump of a node's history. A program writes it to a file through `atomic_file::Draft`, which
// replaces the old dump whole.
fn dumped(alloc: Global, node: &Node<MemDevice>) -> Result<Vec<u8>> {
    let mut bytes = Vec::new(alloc);
    write_dump(alloc, &mut bytes, node.id(), node.history())?;
    Ok(bytes)
}

// Gives a node the history of a dump, all or nothing: the whole dump was read, and its digests were
// compared, before the node takes anything in.
fn restore(alloc: Global, node: &mut Node<MemDevice>, dump: &[u8]) -> Result<()> {
    let mut reader = dump;
    let history = read_dump(alloc, &mut reader)?;
    node.join(&history)?;
    Ok(())
}

// Loads the hottest pages, and prints which.
fn warm(rt: &impl Print, node: &mut Node<MemDevice>) -> Result<()> {
    for _ in 0..FRAMES {
        let Some(page) = node.warm_step()? else {
            return Ok(());
        };
        println!(rt; "loaded page {}", page.no)?;
    }
    Ok(())
}

// Pins a page, writes to it, reads it again and unpins it.
fn change(node: &mut Node<MemDevice>, no: u64, text: &[u8]) -> Result<Vec<u8>> {
    let slot = node.pin(page(no))?;
    node.write(slot, 0, text)?;
    let bytes = node.read(slot, 0, text.len())?;
    node.unpin(slot)?;
    Ok(bytes.into_vec())
}

// Pins a page without reading it, fills it in place and unpins it. Returns how many bytes it has.
// Nothing is copied.
fn renew(node: &mut Node<MemDevice>, no: u64, byte: u8) -> Result<usize> {
    let slot = node.pin_zeroed(page(no))?;
    node.bytes_mut(slot).fill(byte);
    let size = node.bytes(slot)?.len();
    node.unpin(slot)?;
    Ok(size)
}

// The primary is used, and gossips with the standby. Returns the dump of the standby's history;
// both nodes are dropped.
fn live(rt: &impl Print, alloc: Global) -> Result<Vec<u8>> {
    let mut primary = opened(alloc, 1)?;
    let mut standby = opened(alloc, 2)?;
    let _reads = access(alloc, &mut primary, 1, &WORKING_SET)?;
    let _reads = access(alloc, &mut primary, 5, &WORKING_SET)?;
    let _reads = access(alloc, &mut primary, 9, &SCAN)?;
    let rounds = make_equal(alloc, &mut primary, &mut standby)?;
    println!(rt;
        "{} pages known after round {}",
        standby.history().len(),
        rounds
    )?;
    dumped(alloc, &standby)
}

// The standby is restarted: a new node joins the history of the dump, and loads its hottest pages.
fn restarted(rt: &impl Print, alloc: Global, dump: &[u8]) -> Result<Node<MemDevice>> {
    let mut standby = opened(alloc, 2)?;
    restore(alloc, &mut standby, dump)?;
    println!(rt;
        "{} pages known of a dump of {} bytes",
        standby.history().len(),
        dump.len()
    )?;
    warm(rt, &mut standby)?;
    Ok(standby)
}

// The primary is gone, and a standby takes over: how many pages does it read?
fn take_over(
    rt: &impl Print,
    alloc: Global,
    name: &str,
    standby: &mut Node<MemDevice>,
) -> Result<()> {
    let reads = access(alloc, standby, 17, &AFTER)?;
    println!(rt; "{}: {} reads for {} accesses", name, reads, AFTER.len())?;
    Ok(())
}

fn main(rt: HostRuntime) -> Result<()> {
    let alloc = rt.alloc();
    let dump = live(&rt, alloc)?;
    let mut cold = opened(alloc, 3)?;
    take_over(&rt, alloc, "cold standby", &mut cold)?;
    let mut standby = restarted(&rt, alloc, &dump)?;
    take_over(&rt, alloc, "warm standby", &mut standby)?;
    let bytes = change(&mut standby, 2, b"warm")?;
    println!(rt; "wrote {} bytes", bytes.len())?;
    let size = renew(&mut standby, 3, b'w')?;
    println!(rt; "filled {} bytes in place", size)?;
    standby.into_pool().close()?;
    println!(rt; "closed")?;
    Ok(())
}
