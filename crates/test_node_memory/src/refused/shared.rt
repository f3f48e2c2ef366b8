//! Two shards of a replica that are shared by turns. A refused batch or message may have been taken
//! in by the first.
ghost use Rattle.std.specs.Prelude.{◌≡◌, IfOk};
ghost use Rattle.warm_concurrent.specs.Attached.{AreOf};

use crate::refused::nodes::{digest, request};
use crate::refused::shards::{TwoShards, made};
use std::alloc::Global;
use std::sync::Wait;
use test_kit::cases::{Ended, Met};
use test_kit::{bucket, entry, history_of_pages, once, page, references_to, replica};
use warm_concurrent::{Attached, SharedFault, SharedShards, Sharing, StoppedInStage};
use warm_devices::MemDevice;
use warm_frames::{EntryList, Message};
use warm_gossip::NodeFault;
use warm_refbuffer::RefBuffer;
use warm_stamps::Bucket;
use warm_visits::Stage;

type Shared = SharedShards<MemDevice>;

type Thread = Attached<MemDevice>;

const MEMORY: SharedFault = SharedFault::Node(NodeFault::Memory);

// The shards, of which none is behind a turn. If they are refused, they are given back.
fn sharing(met: &mut Met, alloc: Global, shards: TwoShards) -> Result<Sharing<MemDevice>, Ended> {
    let back = match Sharing::new(alloc, shards) {
        Ok(sharing) => return Ok(sharing),
        Err(back) => back,
    };
    met.refuse(back.count() == 2, "shards that are not shared come back")?;
    match Sharing::new(alloc, back) {
        Ok(sharing) => Ok(sharing),
        Err(_) => Err(met.broken("shards are refused again")),
    }
}

// The shards behind turns. If one is refused, all are given back, and are shared at the second try.
fn shared(met: &mut Met, sharing: Sharing<MemDevice>) -> Result<(Shared, Thread), Ended>
    ensures { IfOk result (λ made. AreOf made.0 made.1.passes) }
{
    let back = match sharing.share() {
        Ok(made) => return Ok(made),
        Err(back) => back,
    };
    met.refuse(true, "")?;
    match back.share() {
        Ok(made) => Ok(made),
        Err(_) => Err(met.broken("turns are refused again")),
    }
}

// A further thread is attached, and ended.
fn attach(met: &mut Met, alloc: Global, shared: &Shared, thread: &mut Thread) -> Result<(), Ended>
    requires { AreOf shared.now thread.old.passes }
    ensures { AreOf shared.now thread.new.passes }
{
    let more = match shared.attach(alloc, thread) {
        Ok(more) => more,
        Err(_) => {
            met.refuse(
                thread.pins() == 0,
                "a thread that is not attached changes nothing",
            )?;
            match shared.attach(alloc, thread) {
                Ok(more) => more,
                Err(_) => return Err(met.broken("a thread is refused again")),
            }
        }
    };
    met.holds(
        shared.detach(thread, more).is_ok(),
        "a thread without pins is ended",
    )
}

// The number of entries that are sent of a bucket. It is asked again if memory is refused.
fn known_in<R: Wait>(
    met: &mut Met,
    rt: &R,
    shared: &Shared,
    thread: &mut Thread,
    bucket: u8,
) -> Result<usize, Ended>
    requires { AreOf shared.now thread.old.passes }
    ensures { AreOf shared.now thread.new.passes }
{
    let Some(bucket) = Bucket::new(bucket) else {
        return Err(met.broken("the number is a bucket's"));
    };
    let mut sent = shared.send(rt, thread, bucket, None);
    if let Err(fault) = sent {
        met.refuse(fault == MEMORY, "entries are refused for memory alone")?;
        sent = shared.send(rt, thread, bucket, None);
    }
    match sent {
        Ok(Message::Entries { entries, .. }) => Ok(entries.as_slice().len()),
        _ => Err(met.broken("entries are refused again")),
    }
}

// Whether the shards before this one know their page, that of their number, and the others do not.
fn is_known_below<R: Wait>(
    met: &mut Met,
    rt: &R,
    shared: &Shared,
    thread: &mut Thread,
    shard: usize,
) -> Result<bool, Ended>
    requires { AreOf shared.now thread.old.passes }
    ensures { AreOf shared.now thread.new.passes }
{
    let first = known_in(met, rt, shared, thread, 0)?;
    let second = known_in(met, rt, shared, thread, 1)?;
    Ok((first == 1) == (shard > 0) && (second == 1) == (shard > 1))
}

// Pages 0 to 5: three of each shard, of which the first is that of the shard's number.
fn absorb<R: Wait>(
    met: &mut Met,
    rt: &R,
    alloc: Global,
    shared: &Shared,
    thread: &mut Thread,
) -> Result<(), Ended>
    requires { AreOf shared.now thread.old.passes }
    ensures { AreOf shared.now thread.new.passes }
{
    let batch = references_to(alloc, 0, 6, 10)?;
    if let Err(at) = shared.absorb(rt, alloc, thread, &batch) {
        let is_part = is_known_below(met, rt, shared, thread, at.shard)?;
        let is_refused = at.fault == MEMORY && at.shard < 2 && is_part;
        met.refuse(
            is_refused,
            "the shards before the one named take a refused batch in",
        )?;
        let again = shared.absorb(rt, alloc, thread, &batch).is_ok();
        met.holds(again, "a batch is refused again by shared shards")?;
    }
    let are_known = is_known_below(met, rt, shared, thread, 2)?;
    met.holds(are_known, "each shared shard has its pages")
}

// Loads the hottest page of a shard, pins it, and reads of it.
fn read<R: Wait>(met: &mut Met, rt: &R, shared: &Shared, thread: &mut Thread) -> Result<(), Ended>
    requires { AreOf shared.now thread.old.passes }
    ensures { AreOf shared.now thread.new.passes }
{
    if shared.count() < 2 {
        return Err(met.broken("two shards are shared"));
    }
    let mut loaded = shared.warm_step(rt, thread, 1);
    if let Err(fault) = loaded {
        met.refuse(
            fault == MEMORY,
            "a warm-up step is refused for memory alone",
        )?;
        loaded = shared.warm_step(rt, thread, 1);
    }
    let Ok(Some(page)) = loaded else {
        return Err(met.broken("a warm-up step is refused again"));
    };
    let Ok(at) = shared.pin(rt, thread, page) else {
        return Err(met.broken("a loaded page is pinned"));
    };
    let mut bytes = shared.read(rt, thread, at, 0, 16);
    if let Err(fault) = bytes {
        met.refuse(fault == MEMORY, "a read is refused for memory alone")?;
        bytes = shared.read(rt, thread, at, 0, 16);
    }
    met.holds(bytes.is_ok(), "a read is refused again")?;
    met.holds(
        shared.unpin(rt, thread, at).is_ok(),
        "a pinned page is unpinned",
    )
}

// Names the page that a shard's next warm-up step would load.
fn next<R: Wait>(met: &mut Met, rt: &R, shared: &Shared, thread: &mut Thread) -> Result<(), Ended>
    requires { AreOf shared.now thread.old.passes }
    ensures { AreOf shared.now thread.new.passes }
{
    if shared.count() < 2 {
        return Err(met.broken("two shards are shared"));
    }
    let mut next = shared.warm_next(rt, thread, 0);
    if let Err(fault) = next {
        met.refuse(fault == MEMORY, "a page is not named for memory alone")?;
        next = shared.warm_next(rt, thread, 0);
    }
    let is_named = matches!(next, Ok(Some(_)));
    met.holds(is_named, "the next page is refused again by shared shards")
}

// Lists the hottest pages of a shard.
fn list<R: Wait>(met: &mut Met, rt: &R, shared: &Shared, thread: &mut Thread) -> Result<(), Ended>
    requires { AreOf shared.now thread.old.passes }
    ensures { AreOf shared.now thread.new.passes }
{
    if shared.count() < 2 {
        return Err(met.broken("two shards are shared"));
    }
    let mut listed = shared.warm_list_of(rt, thread, 1, 8);
    if let Err(fault) = listed {
        met.refuse(fault == MEMORY, "a list is refused for memory alone")?;
        listed = shared.warm_list_of(rt, thread, 1, 8);
    }
    met.holds(listed.is_ok(), "a list is refused again by shared shards")
}

// Lists the hottest pages of both shards. A refused list names the shard that it stopped at, or the
// one after the copy that was not joined, or as many shards as there are.
fn list_all<R: Wait>(
    met: &mut Met,
    rt: &R,
    alloc: Global,
    shared: &Shared,
    thread: &mut Thread,
) -> Result<(), Ended>
    requires { AreOf shared.now thread.old.passes }
    ensures { AreOf shared.now thread.new.passes }
{
    let mut listed = shared.warm_list(rt, alloc, thread, 4);
    if let Err(at) = listed {
        let is_refused = at.fault == MEMORY && at.shard <= 2;
        met.refuse(is_refused, "a list of both is refused for memory alone")?;
        listed = shared.warm_list(rt, alloc, thread, 4);
    }
    let Ok(listed) = listed else {
        return Err(met.broken("a list of both is refused again"));
    };
    let is_whole = listed.as_slice().len() == 4;
    met.holds(is_whole, "a list has the pages of both shards")?;
    let is_unchanged = is_known_below(met, rt, shared, thread, 2)?;
    met.holds(is_unchanged, "a list changes nothing of shared shards")
}

// Sends what is new in a bucket.
fn publish<R: Wait>(
    met: &mut Met,
    rt: &R,
    shared: &Shared,
    thread: &mut Thread,
) -> Result<(), Ended>
    requires { AreOf shared.now thread.old.passes }
    ensures { AreOf shared.now thread.new.passes }
{
    let mut sent = shared.send_since(rt, thread, bucket(1), 10, None);
    if let Err(fault) = sent {
        met.refuse(fault == MEMORY, "a portion is refused for memory alone")?;
        sent = shared.send_since(rt, thread, bucket(1), 10, None);
    }
    met.holds(sent.is_ok(), "a portion is refused again by shared shards")
}

// Whether a call of two shards that raises them first was refused for memory: no visit was made, and
// no shard was raised; or all were, and it stopped in this stage, at a shard below `count`.
fn is_refused(why: StoppedInStage, stage: Stage, count: usize) -> bool {
    let shards = match why.stage {
        Stage::Raising => 1,
        other if other == stage => count,
        _ => 0,
    };
    why.at.fault == MEMORY && why.at.shard < shards
}

// Entries of the pages 8 and 9, one of each shard, at the horizon 15, which drops what was known.
// If a shard refuses its entries, the shards before it have taken theirs in.
fn receive<R: Wait>(
    met: &mut Met,
    rt: &R,
    alloc: Global,
    shared: &Shared,
    thread: &mut Thread,
) -> Result<(), Ended>
    requires { AreOf shared.now thread.old.passes }
    ensures { AreOf shared.now thread.new.passes }
{
    let entries = [entry(page(8), once(20, 1)), entry(page(9), once(20, 1))];
    let Ok(entries) = EntryList::of(Vec::from_slice(alloc, &entries)?) else {
        return Err(met.broken("two entries do not fit in a frame"));
    };
    let message = Message::Entries {
        sender: replica(2),
        horizon: 15,
        entries,
    };
    if let Err(why) = shared.receive(rt, alloc, thread, &message) {
        let is_refused = is_refused(why, Stage::Giving, 2);
        met.refuse(is_refused, "entries are refused for memory alone")?;
        let again = shared.receive(rt, alloc, thread, &message).is_ok();
        met.holds(again, "entries are refused again by shared shards")?;
    }
    let are_dropped = is_known_below(met, rt, shared, thread, 0)?;
    met.holds(are_dropped, "what is older than the horizon is dropped")
}

// A history of the pages 64 and 65, one of each shard, is joined. If a shard refuses its part, the
// shards before it have taken theirs in.
fn join<R: Wait>(
    met: &mut Met,
    rt: &R,
    alloc: Global,
    shared: &Shared,
    thread: &mut Thread,
) -> Result<(), Ended>
    requires { AreOf shared.now thread.old.passes }
    ensures { AreOf shared.now thread.new.passes }
{
    let other = history_of_pages(alloc, 64, 66, 30)?;
    if let Err(why) = shared.join(rt, alloc, thread, &other) {
        let is_part = is_known_below(met, rt, shared, thread, why.at.shard)?;
        met.refuse(
            is_refused(why, Stage::Giving, 2) && is_part,
            "the shards before the one named take a refused history in",
        )?;
        let again = shared.join(rt, alloc, thread, &other).is_ok();
        met.holds(again, "a history is refused again by shared shards")?;
    }
    let are_known = is_known_below(met, rt, shared, thread, 2)?;
    met.holds(are_known, "each shared shard has its part of a history")
}

// A thread's buffer, with references to the pages 66 to 68, two of shard 0 and one of shard 1.
fn touched(met: &mut Met, alloc: Global) -> Result<RefBuffer, Ended> {
    let Ok(mut buffer) = RefBuffer::new(alloc, 3) else {
        return Err(Ended::NoMemory);
    };
    for reference in references_to(alloc, 66, 69, 40)? {
        let taken = buffer.touch(reference).is_ok();
        met.holds(taken, "a buffer takes as many as it holds")?;
    }
    Ok(buffer)
}

// The buffer is flushed. A refused flush keeps all three references, and the second one empties the
// buffer.
fn flush<R: Wait>(
    met: &mut Met,
    rt: &R,
    alloc: Global,
    shared: &Shared,
    thread: &mut Thread,
) -> Result<(), Ended>
    requires { AreOf shared.now thread.old.passes }
    ensures { AreOf shared.now thread.new.passes }
{
    let mut buffer = touched(met, alloc)?;
    if let Err(at) = shared.flush(rt, alloc, thread, &mut buffer) {
        let is_kept = at.fault == MEMORY && at.shard < 2 && buffer.len() == 3;
        met.refuse(is_kept, "a refused flush keeps the buffer")?;
        let again = shared.flush(rt, alloc, thread, &mut buffer).is_ok();
        met.holds(again, "a flush is refused again by shared shards")?;
    }
    let is_empty = buffer.is_empty() && buffer.cap() == 3;
    met.holds(is_empty, "a flushed buffer is empty")?;
    let known = known_in(met, rt, shared, thread, 3)?;
    met.holds(known == 1, "each shared shard has what was flushed")
}

// The digests of both shards are offered. A refused offer changes nothing.
fn offer<R: Wait>(
    met: &mut Met,
    rt: &R,
    alloc: Global,
    shared: &Shared,
    thread: &mut Thread,
) -> Result<(), Ended>
    requires { AreOf shared.now thread.old.passes }
    ensures { AreOf shared.now thread.new.passes }
{
    if let Err(at) = shared.offer(rt, alloc, thread) {
        let is_refused = at.fault == MEMORY && at.shard < 2;
        met.refuse(is_refused, "an offer is refused for memory alone")?;
        let again = shared.offer(rt, alloc, thread).is_ok();
        met.holds(again, "an offer is refused again by shared shards")?;
    }
    let is_unchanged = is_known_below(met, rt, shared, thread, 2)?;
    met.holds(is_unchanged, "an offer changes nothing of shared shards")
}

// Whether a message that brings nothing was refused for memory: while a shard offered, or while
// entries were sent (the list of answers may be refused after the last shard).
fn is_refused_answer(why: StoppedInStage) -> bool {
    is_refused(why, Stage::Offering, 2) || is_refused(why, Stage::Sending, 3)
}

// A message that brings nothing is answered.
fn answer<R: Wait>(
    met: &mut Met,
    rt: &R,
    alloc: Global,
    shared: &Shared,
    thread: &mut Thread,
    message: &Message,
) -> Result<(), Ended>
    requires { AreOf shared.now thread.old.passes }
    ensures { AreOf shared.now thread.new.passes }
{
    if let Err(why) = shared.receive(rt, alloc, thread, message) {
        let is_refused = is_refused_answer(why);
        met.refuse(is_refused, "answers are refused for memory alone")?;
        let again = shared.receive(rt, alloc, thread, message).is_ok();
        met.holds(again, "answers are refused again by shared shards")?;
    }
    let is_unchanged = is_known_below(met, rt, shared, thread, 2)?;
    met.holds(is_unchanged, "answers change nothing of shared shards")
}

// Copies the history of both shards. A refused copy changes nothing. It names the shard that it
// stopped at, or the one after the copy that was not joined.
fn copy<R: Wait>(
    met: &mut Met,
    rt: &R,
    alloc: Global,
    shared: &Shared,
    thread: &mut Thread,
) -> Result<(), Ended>
    requires { AreOf shared.now thread.old.passes }
    ensures { AreOf shared.now thread.new.passes }
{
    let mut copy = shared.history(rt, alloc, thread);
    if let Err(at) = copy {
        let is_refused = at.fault == MEMORY && at.shard <= 2;
        met.refuse(is_refused, "a copy is refused for memory alone")?;
        copy = shared.history(rt, alloc, thread);
    }
    let Ok(copy) = copy else {
        return Err(met.broken("a copy is refused again"));
    };
    met.holds(copy.len() == 6, "a copy has the pages of both shards")?;
    let is_unchanged = is_known_below(met, rt, shared, thread, 2)?;
    met.holds(is_unchanged, "a copy changes nothing of shared shards")
}

// Asks for the answers to a message. A refusal changes nothing. It names the shard that it stopped
// at, or how many there are.
fn ask<R: Wait>(
    met: &mut Met,
    rt: &R,
    alloc: Global,
    shared: &Shared,
    thread: &mut Thread,
    message: &Message,
) -> Result<(), Ended>
    requires { AreOf shared.now thread.old.passes }
    ensures { AreOf shared.now thread.new.passes }
{
    if let Err(at) = shared.answers(rt, alloc, thread, message) {
        let is_refused = at.fault == MEMORY && at.shard <= 2;
        met.refuse(is_refused, "a question is refused for memory alone")?;
        let again = shared.answers(rt, alloc, thread, message).is_ok();
        met.holds(again, "a question is refused again by shared shards")?;
    }
    let is_unchanged = is_known_below(met, rt, shared, thread, 2)?;
    met.holds(is_unchanged, "a question changes nothing of shared shards")
}

// Closes the shards. If they are refused, they are given back, and are closed at the second try.
fn close(met: &mut Met, alloc: Global, shared: Shared, thread: Thread) -> Result<(), Ended>
    requires { AreOf shared thread.passes }
{
    let back = match shared.close(alloc, thread) {
        Ok(nodes) => return met.holds(nodes.len() == 2, "each shard has a node"),
        Err(back) => back,
    };
    met.refuse(back.fault == MEMORY, "a close is refused for memory alone")?;
    match back.shared.close(alloc, back.attached) {
        Ok(nodes) => met.holds(nodes.len() == 2, "each shard has a node"),
        Err(_) => Err(met.broken("a close is refused again")),
    }
}

// All calls on two shared shards, one after the other.
pub(crate) fn rows<R: Wait>(met: &mut Met, rt: &R, alloc: Global) -> Result<(), Ended> {
    let shards = made(met, alloc)?;
    let sharing = sharing(met, alloc, shards)?;
    let (shared, mut thread) = shared(met, sharing)?;
    attach(met, alloc, &shared, &mut thread)?;
    absorb(met, rt, alloc, &shared, &mut thread)?;
    copy(met, rt, alloc, &shared, &mut thread)?;
    offer(met, rt, alloc, &shared, &mut thread)?;
    answer(met, rt, alloc, &shared, &mut thread, &digest(0))?;
    answer(met, rt, alloc, &shared, &mut thread, &request(0))?;
    ask(met, rt, alloc, &shared, &mut thread, &digest(15))?;
    ask(met, rt, alloc, &shared, &mut thread, &request(15))?;
    next(met, rt, &shared, &mut thread)?;
    read(met, rt, &shared, &mut thread)?;
    list(met, rt, &shared, &mut thread)?;
    list_all(met, rt, alloc, &shared, &mut thread)?;
    publish(met, rt, &shared, &mut thread)?;
    receive(met, rt, alloc, &shared, &mut thread)?;
    join(met, rt, alloc, &shared, &mut thread)?;
    flush(met, rt, alloc, &shared, &mut thread)?;
    close(met, alloc, shared, thread)
}
