//! A node that is shared by turns, a worker of it, jobs in threads of their own, and mail.
ghost use Rattle.std.specs.Prelude.{◌≡◌, IfOk};

use std::alloc::Global;
use std::sync::Wait;
use std::thread::Threads;
use test_kit::cases::{Ended, Met};
use test_kit::{page, seen};
use warm_devices::MemDevice;
use warm_frames::{DIGEST_SIZE, DigestTable, Message, encode};
use warm_gossip::{Call, Node, NodeFault, Reply};
use warm_refbuffer::RefBuffer;
use warm_replica::{
    BoxedCall, FlushFault, Job, MAX_JOBS, Mail, MailReport, MemPost, NoGate, Post, Replica,
    Replies, RunFault, Step, StepReply, Worker, mail_loop, run_workers,
};
use warm_stamps::{BUCKETS, ByteList, ReplicaId};
use warm_turn::{Memory, Pass, Turn};

// A turn over the node. If it is refused, the node is given back, and is shared at the second try.
fn shared(
    met: &mut Met,
    alloc: Global,
    node: Node<MemDevice>,
) -> Result<(Replica<MemDevice>, Pass<Node<MemDevice>>), Ended>
    ensures { IfOk result (λ made. made.1.table ≡ made.0.table) }
{
    let node = match Turn::new(alloc, node) {
        Ok(made) => return Ok(made),
        Err(Memory { machine }) => machine,
    };
    met.refuse(true, "")?;
    match Turn::new(alloc, node) {
        Ok(made) => Ok(made),
        Err(_) => Err(met.broken("a turn is refused again")),
    }
}

// Fills a worker's buffer of two, and flushes it. A refused flush keeps the two references, and the
// next flush succeeds.
fn flush<R: Wait>(
    met: &mut Met,
    rt: &R,
    alloc: Global,
    replica: &Replica<MemDevice>,
    mut worker: Worker<Node<MemDevice>>,
) -> Result<Worker<Node<MemDevice>>, Ended>
    requires { worker.pass.table ≡ replica.now.table }
    ensures { IfOk result (λ w. w.pass.table ≡ replica.now.table) }
{
    let both = [seen(page(1), 10, 1), seen(page(1), 20, 1)];
    let is_taken = worker.touch(both[0]).is_ok() && worker.touch(both[1]).is_ok();
    met.holds(is_taken, "the buffer takes two")?;
    let Err(fault) = worker.flush(rt, alloc, replica) else {
        return Ok(worker);
    };
    let (pass, buffer) = worker.into_parts();
    let is_kept = buffer.refs() == both.as_slice();
    met.refuse(
        is_kept && fault == FlushFault::Memory,
        "a refused flush keeps the batch",
    )?;
    let mut worker = Worker::new(pass, buffer);
    met.holds(
        worker.flush(rt, alloc, replica).is_ok(),
        "a flush is refused again",
    )?;
    Ok(worker)
}

// Requests the hottest page by a worker, which is that of its flush.
fn list<R: Wait>(
    met: &mut Met,
    rt: &R,
    replica: &Replica<MemDevice>,
    worker: &mut Worker<Node<MemDevice>>,
) -> Result<(), Ended>
    requires { worker.old.pass.table ≡ replica.now.table }
    ensures { worker.new.pass.table ≡ replica.now.table }
{
    let mut answer = worker.call(rt, replica, Call::WarmList(5));
    if let Ok(Reply::Refused(fault)) = answer {
        met.refuse(
            fault == NodeFault::Memory,
            "a list is refused for memory alone",
        )?;
        answer = worker.call(rt, replica, Call::WarmList(5));
    }
    let Ok(Reply::Pages(pages)) = answer else {
        return Err(met.broken("a list is refused again"));
    };
    met.holds(pages.as_slice() == [page(1)].as_slice(), "0:1 was flushed")
}

// Two jobs: a touch, a flush and a list.
fn jobs(alloc: Global) -> Result<Vec<Job>, Ended> {
    let mut all = Vec::new(alloc);
    for no in 2..4u64 {
        let mut steps = Vec::with_capacity(alloc, 3)?;
        steps.push_reserved(Step::Touch(seen(page(no), 30, 1)));
        steps.push_reserved(Step::Flush);
        let list = BoxedCall::new(alloc, Call::WarmList(1))?;
        steps.push_reserved(Step::Call(list));
        if all.push(Job { cap: 1, steps }).is_err() {
            return Err(Ended::NoMemory);
        }
    }
    Ok(all)
}

// The replies of the jobs, each in a thread of its own.
fn replies_to<R: Threads + Wait + Sync>(
    rt: &R,
    alloc: Global,
    replica: &Replica<MemDevice>,
    pass: &mut Pass<Node<MemDevice>>,
) -> Result<Result<Vec<Replies>, RunFault>, Ended>
    requires { pass.old.table ≡ replica.now.table }
    ensures { pass.new.table ≡ replica.now.table }
{
    let all = jobs(alloc)?;
    if all.len() > MAX_JOBS {
        return Err(Ended::Broken);
    }
    Ok(run_workers(rt, alloc, replica, pass, all, &NoGate))
}

// The replies of a job, one for each step. If the list is refused, they are given back, and are
// listed at the second try.
fn listed(met: &mut Met, alloc: Global, replies: Replies) -> Result<Vec<StepReply>, Ended> {
    let back = match replies.into_vec(alloc) {
        Ok(list) => return Ok(list),
        Err(back) => back,
    };
    met.refuse(back.len() == 3, "each step has its reply still")?;
    match back.into_vec(alloc) {
        Ok(list) => Ok(list),
        Err(_) => Err(met.broken("a list of replies is refused again")),
    }
}

// The number of steps refused because of an allocation failure; none may be refused for another
// reason.
fn refused_in(met: &mut Met, alloc: Global, replies: Vec<Replies>) -> Result<usize, Ended> {
    let mut refused = 0usize;
    for job in replies {
        met.holds(job.len() == 3, "each step has its reply")?;
        for reply in &listed(met, alloc, job)? {
            match reply {
                StepReply::Touched | StepReply::Flushed => {}
                StepReply::Failed(FlushFault::Memory) => refused = refused.wrapping_add(1),
                StepReply::Answered(reply) => match reply.as_reply() {
                    Reply::Pages(_) => {}
                    Reply::Refused(NodeFault::Memory) => refused = refused.wrapping_add(1),
                    _ => return Err(met.broken("a call is answered otherwise")),
                },
                _ => return Err(met.broken("a step is answered otherwise")),
            }
        }
    }
    Ok(refused)
}

// Runs the jobs; if one is refused, or a thread can't be started, again.
fn run<R: Threads + Wait + Sync>(
    met: &mut Met,
    rt: &R,
    alloc: Global,
    replica: &Replica<MemDevice>,
    pass: &mut Pass<Node<MemDevice>>,
) -> Result<(), Ended>
    requires { pass.old.table ≡ replica.now.table }
    ensures { pass.new.table ≡ replica.now.table }
{
    match replies_to(rt, alloc, replica, pass)? {
        Ok(replies) => {
            let refused = refused_in(met, alloc, replies)?;
            if refused == 0 {
                return Ok(());
            }
            met.refuse(refused == 1, "one step is refused")?;
        }
        Err(fault) => met.refuse(fault != RunFault::BadCapacity, "the jobs have capacities")?,
    }
    match replies_to(rt, alloc, replica, pass)? {
        Ok(replies) => {
            let refused = refused_in(met, alloc, replies)?;
            met.holds(refused == 0, "a step is refused again")
        }
        Err(_) => Err(met.broken("jobs are refused again")),
    }
}

// The digests of an unknown history, from replica 9, as mail. The horizon drops the first of the
// two references to 0:1.
fn mail(alloc: Global) -> Result<Vec<Mail>, Ended> {
    let Ok(sender) = ReplicaId::new(9) else {
        return Err(Ended::Broken);
    };
    let digests = DigestTable::of([[0; DIGEST_SIZE]; BUCKETS as usize]);
    let text = encode(
        alloc,
        &Message::Digest {
            sender,
            horizon: 15,
            digests,
        },
    )?;
    let mut items = Vec::with_capacity(alloc, 2)?;
    items.push_reserved(Mail::Bytes(ByteList::of(text)));
    items.push_reserved(Mail::Stop);
    Ok(items)
}

// The loop's counts of the one item, and the number of answers kept: a request of all buckets, and
// an answer for each of the pages 0:1 to 0:3. Refusals because of an allocation failure are
// counted.
fn counted(met: &mut Met, report: MailReport, kept: u128) -> Result<(), Ended> {
    met.holds(
        report.joined.wrapping_add(report.refused) == 1,
        "one item is counted",
    )?;
    if report.refused == 1 {
        return met.refuse(
            kept == 0 && report.lost == 0,
            "a refused message is answered",
        );
    }
    if report.lost > 0 {
        met.refuse(report.lost == 1, "one answer is lost")?;
    }
    met.holds(
        kept.wrapping_add(report.lost) == 4,
        "each answer is kept or lost",
    )
}

// A replica takes mail, and its answers are kept.
fn listen<R: Wait>(
    met: &mut Met,
    rt: &R,
    alloc: Global,
    replica: &Replica<MemDevice>,
    worker: &mut Worker<Node<MemDevice>>,
) -> Result<(), Ended>
    requires { worker.old.pass.table ≡ replica.now.table }
    ensures { worker.new.pass.table ≡ replica.now.table }
{
    let items = mail(alloc)?;
    let mut post = MemPost::new(alloc);
    let report = mail_loop(
        rt,
        alloc,
        replica,
        worker,
        items.into_iter(),
        &mut post,
        1,
        9,
    );
    counted(met, report, post.given().len() as u128)
}

fn posted(met: &mut Met, alloc: Global) -> Result<(), Ended> {
    let Ok(to) = ReplicaId::new(9) else {
        return Err(met.broken("9 is a replica"));
    };
    let mut bytes = Vec::new(alloc);
    bytes.extend_from_slice(b"warm")?;
    let mut post = MemPost::new(alloc);
    if let Err(back) = post.post(to, ByteList::of(bytes)) {
        let is_back = back.as_slice() == b"warm".as_slice() && post.given().is_empty();
        met.refuse(is_back, "bytes that are not taken come back")?;
        met.holds(post.post(to, back).is_ok(), "bytes are refused again")?;
    }
    met.holds(post.given().len() == 1, "the bytes are kept")
}

pub(crate) fn rows<R: Threads + Wait + Sync>(
    met: &mut Met,
    rt: &R,
    alloc: Global,
    node: Node<MemDevice>,
) -> Result<(), Ended> {
    posted(met, alloc)?;
    let Ok(buffer) = RefBuffer::new(alloc, 2) else {
        return Err(Ended::NoMemory);
    };
    let (replica, pass) = shared(met, alloc, node)?;
    let mut worker = flush(met, rt, alloc, &replica, Worker::new(pass, buffer))?;
    list(met, rt, &replica, &mut worker)?;
    let (mut pass, buffer) = worker.into_parts();
    run(met, rt, alloc, &replica, &mut pass)?;
    let mut worker = Worker::new(pass, buffer);
    listen(met, rt, alloc, &replica, &mut worker)?;
    let (pass, _buffer) = worker.into_parts();
    met.holds(replica.close(pass).is_ok(), "each ticket was passed on")
}
