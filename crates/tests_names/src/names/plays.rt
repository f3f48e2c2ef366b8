//! The same, of worlds, turns, running replicas and schedules.
ghost use Rattle.std.specs.Prelude.{◌≡◌, length};
ghost use Rattle.warm_world.specs.Opening.{AreFew};
ghost use Rattle.warm_world.specs.Views.{listed};

use super::{AMPLE, byte_list, fresh_node, wants};
use crossbeam_channel::{Sender, unbounded};
use std::alloc::Global;
use std::process::Abort;
use std::sync::Wait;
use std::thread::Threads;
use test_kit::{alone, memory, page, replica, seen, twice};
use warm_devices::{MemDevice, PageDevice};
use warm_frames::encode;
use warm_gossip::{Call, Node, Reply};
use warm_refbuffer::{Full, RefBuffer};
use warm_replica::{
    BoxedCall, Gate, Job, Mail, MailIter, MailReport, MemPost, Outbox, Outboxes, Post, Replica,
    RunFault, Step, StepReply, Worker, mail_loop, run_workers,
};
use warm_schedule::{
    Cmd, CmdFault, DeviceSpec, Line, LineFault, PathText, PlayFault, SetupFault, command_of,
    parse_line, play, play_threads, random_schedule, read_setup,
};
use warm_stamps::{ByteList, PageId, bucket_of};
use warm_turn::{Add, Added, Busy, Counter, Machine, Pass, Turn, TurnsSpent};
use warm_world::{Answer, BadSetup, BadWorld, Event, Setup, World, WorldFault};

// A list of one device for one replica.
fn for_one<D: PageDevice>(rt: &impl Abort, alloc: Global, device: D) -> Vec<Vec<D>>
    ensures { AreFew (listed D.state result.items) }
{
    let list = alone(alloc, device).expect(rt, AMPLE);
    let mut lists = Vec::with_capacity(alloc, 1).expect(rt, AMPLE);
    lists.push_reserved(list);
    lists
}

// The same for each of two replicas.
fn for_two<D: PageDevice>(rt: &impl Abort, alloc: Global, first: D, second: D) -> Vec<Vec<D>>
    ensures { AreFew (listed D.state result.items) }
{
    let first = alone(alloc, first).expect(rt, AMPLE);
    let second = alone(alloc, second).expect(rt, AMPLE);
    let mut lists = Vec::with_capacity(alloc, 2).expect(rt, AMPLE);
    lists.push_reserved(first);
    lists.push_reserved(second);
    lists
}

fn in_memory(rt: &impl Abort, alloc: Global, pages: u64) -> MemDevice {
    memory(alloc, pages).expect(rt, AMPLE)
}

// ---- warm_world

// A world of one replica with one worker, over a device of eight pages.
fn fresh_world(rt: &impl Abort, alloc: Global) -> World<MemDevice> {
    let setup = Setup::new(1, 1, 64, 2, 16).expect(rt, "a setup");
    let devices = for_one(rt, alloc, in_memory(rt, alloc, 8));
    match World::new(alloc, setup, devices) {
        Ok(world) => world,
        Err(_) => panic!(rt; "no world"),
    }
}

fn answer(world: &mut World<MemDevice>, event: Event) -> Answer {
    world.step(event)
}

fn does(world: &mut World<MemDevice>, event: Event) -> bool {
    matches!(answer(world, event), Answer::Done)
}

// References, and what is sent and delivered.
fn use_world_history(rt: &impl Abort, world: &mut World<MemDevice>) {
    assert!(rt; does(world, Event::Refer(1, 1, page(1), 10)) && does(world, Event::Flush(1, 1)));
    let bucket = bucket_of(page(1));
    assert!(rt;
        matches!(
            answer(world, Event::Send(1, bucket, None)),
            Answer::FrameNo(1)
        )
    );
    assert!(rt; matches!(answer(world, Event::Offer(1)), Answer::FrameNo(2)));
    let taken = answer(world, Event::Deliver(1, 1));
    assert!(rt; matches!(taken, Answer::Took { count: 0, first: 0 }));
    assert!(rt; matches!(answer(world, Event::Horizon(1, 5)), Answer::Kept(5)));
    let shown = match answer(world, Event::Show(1)) {
        Answer::Shown(history) => history.as_history().len(),
        _ => 0,
    };
    assert!(rt; shown == 1);
}

// Pages of a replica's pool.
fn use_world_pool(rt: &impl Abort, alloc: Global, world: &mut World<MemDevice>) {
    let Answer::Pinned(slot) = answer(world, Event::Pin(1, page(3))) else {
        panic!(rt; "a frame is free");
    };
    assert!(rt; does(world, Event::Put(1, slot, 0, byte_list(rt, alloc, &[7]))));
    let got = match answer(world, Event::Get(1, slot, 0, 1)) {
        Answer::Bytes(bytes) => bytes.as_slice() == [7].as_slice(),
        _ => false,
    };
    assert!(rt; got && does(world, Event::Unpin(1, slot)));
    assert!(rt; matches!(answer(world, Event::Victim(1)), Answer::Page(Some(_))));
    let hottest = match answer(world, Event::Warm(1, 5)) {
        Answer::Pages(pages) => pages.as_slice() == [page(1)].as_slice(),
        _ => false,
    };
    assert!(rt; hottest);
    assert!(rt; matches!(answer(world, Event::WarmStep(1)), Answer::Loaded(Some(_))));
    assert!(rt; does(world, Event::Restart(1)));
}

fn two_shows(rt: &impl Abort, alloc: Global) -> Vec<Event> {
    let mut events = Vec::with_capacity(alloc, 2).expect(rt, AMPLE);
    events.push_reserved(Event::Show(1));
    events.push_reserved(Event::Show(2));
    events
}

#[test]
fn names_of_warm_world(rt: HostRuntime) {
    let alloc = rt.alloc();
    let mut world = fresh_world(&rt, alloc);
    use_world_history(&rt, &mut world);
    use_world_pool(&rt, alloc, &mut world);
    let answers = world.run(two_shows(&rt, alloc)).ok().expect(&rt, AMPLE);
    let second = answers.last().expect(&rt, "two answers");
    assert!(rt; matches!(second, Answer::Refused(WorldFault::NoSuchReplica)));
    assert!(rt; world.finish() == Ok(()) && Setup::new(0, 1, 64, 2, 16) == Err(BadSetup));
    assert!(rt; WorldFault::NoSuchReplica.code() == 14 && WorldFault::NoSuchFrame.code() == 16);
    assert!(rt; BadWorld::DevicesDiffer.code() == 17);
}

// ---- warm_turn

fn called<M: Machine>(machine: &mut M, call: M::Call) -> M::Reply {
    machine.call(call)
}

// A calls add 5; B, split before that, learns A's note, calls add 2, and is ended into A.
fn use_turn<R: Wait + Abort>(rt: &R, alloc: Global) {
    let (turn, mut first) = Turn::new(alloc, Counter { total: 0 })
        .ok()
        .expect(rt, AMPLE);
    let mut second = turn.pass(&mut first);
    let five = turn.call(rt, &mut first, Add(5)).expect(rt, "a ticket");
    let note = turn.note(&mut first);
    turn.learn(&mut second, note);
    let seven = turn.call(rt, &mut second, Add(2)).expect(rt, "a ticket");
    assert!(rt; five == Added::Total(5) && seven == Added::Total(7));
    turn.end(&mut first, second);
    let counter = turn.close(first).expect(rt, "no call is under way");
    assert!(rt; counter.total == 7);
}

#[test]
fn names_of_warm_turn(rt: HostRuntime) {
    use_turn(&rt, rt.alloc());
    let mut full = Counter { total: u64::MAX };
    assert!(rt; called(&mut full, Add(1)) == Added::Overflow);
    let spent = TurnsSpent { call: Add(1) };
    assert!(rt; spent.code() == 2 && spent.name() == "TurnsSpent" && spent.call == Add(1));
    let busy = Busy {
        ticket: 2,
        serving: 1,
    };
    assert!(rt; busy.code() == 3 && busy.name() == "Busy");
}

// ---- warm_replica

// A replica over a fresh node, and its first pass.
fn fresh_replica(rt: &impl Abort, alloc: Global) -> (Replica<MemDevice>, Pass<Node<MemDevice>>)
    ensures { result.1.table ≡ result.0.table }
{
    Turn::new(alloc, fresh_node(rt, alloc))
        .ok()
        .expect(rt, AMPLE)
}

// A third touch is full, the flush takes both references, and the list is of their page.
fn use_worker<R: Wait + Abort>(rt: &R, alloc: Global) {
    let (replica, pass) = fresh_replica(rt, alloc);
    let buffer = RefBuffer::new(alloc, 2).expect(rt, AMPLE);
    let mut worker = Worker::new(pass, buffer);
    assert!(rt; worker.touch(seen(page(1), 10, 1)) == Ok(()));
    assert!(rt; worker.touch(seen(page(1), 20, 1)) == Ok(()));
    assert!(rt; worker.touch(seen(page(1), 30, 1)) == Err(Full(seen(page(1), 30, 1))));
    assert!(rt; worker.flush(rt, alloc, &replica) == Ok(()));
    let answered = worker.call(rt, &replica, Call::WarmList(5));
    let Reply::Pages(pages) = answered.ok().expect(rt, "a ticket") else {
        panic!(rt; "memory is ample");
    };
    assert!(rt; pages.as_slice() == [page(1)].as_slice());
    let (pass, buffer) = worker.into_parts();
    assert!(rt; buffer.len() == 0);
    let node = replica.close(pass).expect(rt, "no call is under way");
    assert!(rt; node.history().get(page(1)) == Some(twice((20, 1), (10, 1))));
}

// A gate that does nothing.
#[derive(Clone, Copy)]
struct Open;

impl Gate for Open {
    fn before(&self, _job: usize, _step: usize) {}

    fn after(&self, _job: usize, _step: usize) {}
}

// A job of a touch, a flush and a call.
fn job_of(rt: &impl Abort, alloc: Global, cap: usize) -> Vec<Job>
    ensures { length result.items ≡ 1 }
{
    let call = BoxedCall::new(alloc, Call::Victim).expect(rt, AMPLE);
    let mut steps = Vec::with_capacity(alloc, 3).expect(rt, AMPLE);
    steps.push_reserved(Step::Touch(seen(page(1), 10, 1)));
    steps.push_reserved(Step::Flush);
    steps.push_reserved(Step::Call(call));
    let mut jobs = Vec::with_capacity(alloc, 1).expect(rt, AMPLE);
    jobs.push_reserved(Job { cap, steps });
    jobs
}

fn are_replies(replies: &[StepReply]) -> bool {
    matches!(
        replies,
        [
            StepReply::Touched,
            StepReply::Flushed,
            StepReply::Answered(_)
        ]
    )
}

fn use_jobs<R: Threads + Wait + Abort + Sync>(rt: &R, alloc: Global) {
    let (replica, mut pass) = fresh_replica(rt, alloc);
    let refused = run_workers(rt, alloc, &replica, &mut pass, job_of(rt, alloc, 0), &Open);
    assert!(rt; refused.err() == Some(RunFault::BadCapacity));
    let all = run_workers(rt, alloc, &replica, &mut pass, job_of(rt, alloc, 1), &Open);
    for replies in all.expect(rt, "a thread") {
        let replies = replies.into_vec(alloc).ok().expect(rt, AMPLE);
        assert!(rt; are_replies(replies.as_slice()));
    }
}

// A channel with a request of replica 2, a byte and a Stop.
fn use_mail<R: Wait + Abort>(rt: &R, alloc: Global) {
    let (replica, pass) = fresh_replica(rt, alloc);
    let buffer = RefBuffer::new(alloc, 1).expect(rt, AMPLE);
    let mut worker = Worker::new(pass, buffer);
    let (sender, receiver) = unbounded(alloc).expect(rt, AMPLE);
    let request = encode(alloc, &wants(0)).expect(rt, AMPLE);
    put(rt, &sender, Mail::Bytes(ByteList::of(request)));
    put(rt, &sender, Mail::Bytes(byte_list(rt, alloc, &[0])));
    put(rt, &sender, Mail::Stop);
    let items = MailIter::new(rt, receiver, 10);
    let mut post = MemPost::new(alloc);
    let report: MailReport = mail_loop(rt, alloc, &replica, &mut worker, items, &mut post, 1, 10);
    assert!(rt; report.joined == 1 && report.refused == 1 && report.lost == 0);
    assert!(rt; post.given().is_empty());
}

fn put<R: Wait + Abort>(rt: &R, sender: &Sender<Mail>, item: Mail) {
    sender.send(rt, item).ok().expect(rt, "the channel is open");
}

// Of two posts one is kept, and the other has no outbox.
fn use_posts<R: Wait + Abort>(rt: &R, alloc: Global) {
    let (sender, receiver) = unbounded(alloc).expect(rt, AMPLE);
    let outbox = Outbox {
        replica: replica(9),
        sender,
    };
    let mut post = Outboxes::new(rt, vec![in alloc; outbox].expect(rt, AMPLE));
    assert!(rt; post.post(replica(9), byte_list(rt, alloc, &[1])).is_ok());
    assert!(rt; post.post(replica(8), byte_list(rt, alloc, &[1])).is_err());
    assert!(rt; matches!(receiver.try_recv(rt), Ok(Mail::Bytes(_))));
    let mut kept = MemPost::new(alloc);
    assert!(rt; kept.post(replica(9), byte_list(rt, alloc, &[1])).is_ok());
    assert!(rt; kept.given().len() == 1);
}

#[test]
fn names_of_warm_replica(rt: HostRuntime) {
    let alloc = rt.alloc();
    use_worker(&rt, alloc);
    use_jobs(&rt, alloc);
    use_mail(&rt, alloc);
    use_posts(&rt, alloc);
    assert!(rt; RunFault::Memory.code() == 1 && RunFault::BadCapacity.code() == 3);
}

// ---- warm_schedule

fn use_lines(rt: &impl Abort, alloc: Global) {
    let line = parse_line(alloc, b"ref 1 2 0:1 10");
    assert!(rt;
        matches!(
            line,
            Ok(Line::Act(Event::Refer(1, 2, PageId { dev: 0, no: 1 }, 10)))
        )
    );
    assert!(rt; matches!(parse_line(alloc, b"# x"), Ok(Line::Nothing)));
    assert!(rt; matches!(parse_line(alloc, b"foo"), Err(LineFault::Bad)));
    assert!(rt; LineFault::Memory.code() == 1 && LineFault::Bad.code() == 2);
}

// The setup of a text, and its last device.
fn setup_of(rt: &impl Abort, alloc: Global, text: &str) -> (Setup, DeviceSpec) {
    let (setup, mut devices) = read_setup(alloc, text).expect(rt, AMPLE);
    let device = devices.pop().expect(rt, "a device");
    (setup, device)
}

fn path_in(command: Result<Cmd, CmdFault>) -> Option<PathText> {
    match command {
        Ok(Cmd::Threads { file, setup: None }) => Some(file),
        _ => None,
    }
}

fn use_setups(rt: &impl Abort, alloc: Global) {
    let (setup, device) = setup_of(rt, alloc, "");
    assert!(rt; setup.replicas() == 3 && device.pages == 256 && device.path.is_none());
    assert!(rt; read_setup(alloc, "frames = 0").err() == Some(SetupFault::BadValue));
    let words = ["warmplay", "threads", "orders"];
    let path = path_in(command_of(alloc, words.as_slice())).expect(rt, "a file");
    assert!(rt; path.as_str() == "orders");
    let words = ["warmplay", "threads"];
    assert!(rt; path_in(command_of(alloc, words.as_slice())).is_none());
    assert!(rt; CmdFault::Memory.code() == 1 && SetupFault::NotToml.code() == 2);
}

fn use_player(rt: &impl Abort, alloc: Global) {
    let (setup, _device) = setup_of(rt, alloc, "replicas = 2");
    let mut reader: &[u8] = b"ref 1 1 0:1 10\nflush 1 1\nshow 1\n";
    let mut out = Vec::new(alloc);
    let devices = for_two(
        rt,
        alloc,
        in_memory(rt, alloc, 256),
        in_memory(rt, alloc, 256),
    );
    assert!(rt; play(alloc, &mut reader, &mut out, setup, devices) == Ok(()));
    assert!(rt; out.as_slice() == "ok\nok\n0:1 last 10@1\nend 1\n".as_bytes());
    let mut drawn = Vec::new(alloc);
    assert!(rt; random_schedule(&mut drawn, 7, 0, &setup) == Ok(()) && drawn.is_empty());
}

const SHOWN: &str = "replica 1\n0:1 last 10@1\nend 1\nreplica 2\n0:1 last 10@1\nend 1\n";

fn use_threads<R: Threads + Wait + Abort + Sync>(rt: &R, alloc: Global) {
    let (setup, _device) = setup_of(rt, alloc, "replicas = 2");
    let mut reader: &[u8] = b"ref 1 1 0:1 10\n";
    let mut out = Vec::new(alloc);
    let devices = for_two(
        rt,
        alloc,
        in_memory(rt, alloc, 256),
        in_memory(rt, alloc, 256),
    );
    assert!(rt; play_threads(rt, alloc, &mut reader, &mut out, setup, devices) == Ok(()));
    assert!(rt; out.as_slice() == SHOWN.as_bytes());
    let mut reader: &[u8] = b"show 1\n";
    let devices = for_two(
        rt,
        alloc,
        in_memory(rt, alloc, 256),
        in_memory(rt, alloc, 256),
    );
    let refused = play_threads(rt, alloc, &mut reader, &mut out, setup, devices);
    assert!(rt; refused == Err(PlayFault::BadLine(1)));
}

#[test]
fn names_of_warm_schedule(rt: HostRuntime) {
    let alloc = rt.alloc();
    use_lines(&rt, alloc);
    use_setups(&rt, alloc);
    use_player(&rt, alloc);
    use_threads(&rt, alloc);
    let fault = PlayFault::BadLine(7);
    assert!(rt; fault.code() == 4 && fault.name() == "BadLine");
}
