//! Writes pages over a device that asks a log before each write. `checks/logged/check` kills it at
//! any moment, and compares the file of pages with the log.
//!
//! Each step puts its number into a page of a pool of few frames, so that pages leave and are
//! written. Before each of these writes the log appends the page's number and bytes to a file; each
//! fifth time it answers "not yet" instead, and the call is made again. After each hundredth step
//! all is written back and flushed, and then the number of the step is printed. The files are `log`
//! and `pages`, in the folder that it runs in.

use anyhow::{Result, bail};
use std::fs::{File, OpenOptions};
use std::io::{Print, Write};
use warm_devices::{FileDevice, Logged, NotYet, PageLog};
use warm_gossip::{Node, NodeFault};
use warm_pool::{Pool, PoolFault, Slot};
use warm_stamps::{PageId, ReplicaId};

const FRAMES: usize = 4;

const PAGES: u64 = 16;

// Eight bytes for the number of a step, and eight for that of the page.
const PAGE_SIZE: usize = 16;

const STEPS: u64 = 4000;

// After how many steps all is flushed.
const FLUSHED_EACH: u64 = 100;

// How often the log is asked before it answers "not yet" once.
const REFUSED_EACH: u64 = 5;

// How often a call is made that the log holds up. Each time it gets further.
const TRIES: usize = 8;

// A log in a file, which has what was asked for, in order.
#[derive(Drop)]
struct FileLog {
    file: File,
    asked: u64,
}

impl PageLog for FileLog {
    ghost use Rattle.std.specs.Prelude.{ℕ};

    ghost answers = { λ log no bytes answer after. Unit {0} };

    fn before_write(&mut self, no: u64, bytes: &[u8]) -> Result<(), NotYet> {
        self.asked = self.asked.wrapping_add(1);
        if self.asked % REFUSED_EACH == 0 {
            return Err(NotYet);
        }
        let number = no.to_be_bytes();
        if self.file.write_all(&number).is_err() || self.file.write_all(bytes).is_err() {
            return Err(NotYet);
        }
        Ok(())
    }
}

type LoggedNode = Node<Logged<FileDevice, FileLog>>;

fn opened(rt: &HostRuntime) -> Result<LoggedNode> {
    let file = OpenOptions::new()
        .write(true)
        .create(true)
        .truncate(true)
        .open(rt, "log")?;
    let log = FileLog { file, asked: 0 };
    let device = FileDevice::open(rt, "pages", PAGES, PAGE_SIZE)?;
    let mut devices = Vec::with_capacity(rt.alloc(), 1)?;
    devices.push_reserved(Logged::new(device, log));
    let pool = Pool::new(rt.alloc(), FRAMES, PAGE_SIZE, devices)?;
    Ok(Node::new(rt.alloc(), ReplicaId::new(1)?, pool))
}

// The page of a step: each page in turn, in another order each time.
fn page_of(step: u64) -> PageId {
    let no = (step.wrapping_mul(5).wrapping_add(step / PAGES)) % PAGES;
    PageId { dev: 0, no }
}

// Pins a page. A pin that the log holds up, since a page that is to leave may not be written yet,
// is made again.
fn pinned(node: &mut LoggedNode, page: PageId) -> Result<Slot> {
    for _try in 0..TRIES {
        match node.pin(page) {
            Ok(slot) => return Ok(slot),
            Err(NodeFault::Pool(PoolFault::WriteBack)) => {}
            Err(fault) => return Err(fault.into()),
        }
    }
    bail!("the log holds a pin up for ever")
}

fn make_step(node: &mut LoggedNode, step: u64) -> Result<()> {
    let page = page_of(step);
    let slot = pinned(node, page)?;
    node.write(slot, 0, &step.to_be_bytes())?;
    node.write(slot, 8, &page.no.to_be_bytes())?;
    node.unpin(slot)?;
    Ok(())
}

fn flush(node: &mut LoggedNode) -> Result<()> {
    for _try in 0..TRIES {
        match node.write_back() {
            Ok(()) => return Ok(()),
            Err(NodeFault::Pool(PoolFault::Fault)) => {}
            Err(fault) => return Err(fault.into()),
        }
    }
    bail!("the log holds a flush up for ever")
}

pub(crate) fn run(rt: &HostRuntime) -> Result<()> {
    let mut node = opened(rt)?;
    for step in 1..=STEPS {
        make_step(&mut node, step)?;
        if step % FLUSHED_EACH == 0 {
            flush(&mut node)?;
            println!(rt; "{step}")?;
        }
    }
    Ok(())
}
