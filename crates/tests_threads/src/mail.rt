//! Loops over mail: when they end, what they count, which answers a post gets, and what they leave
//! unchanged. Loops in threads of their own are in mail_loops.
ghost use Rattle.std.specs.Prelude.{◌≡◌};

use crate::setup::{fresh_node, node_over, turn_and_worker};
use crossbeam_channel::{Receiver, Sender, unbounded};
use std::alloc::Global;
use std::process::Abort;
use std::sync::Wait;
use test_kit::{NARROW, WIDE, entry, memory, once, page, replica, seen, twice};
use warm_devices::MemDevice;
use warm_digest::digests;
use warm_frames::{EntryList, Message, decode, encode};
use warm_gossip::Node;
use warm_history::{Entry, History};
use warm_pool::Slot;
use warm_replica::{
    BatchMachine, Mail, MailIter, MailReport, MemPost, Outbox, Outboxes, Post, mail_loop,
};
use warm_stamps::{ByteList, ReplicaId};

// Sends an item to a channel.
pub(crate) fn send<R: Wait + Abort>(rt: &R, sender: &Sender<Mail>, item: Mail) {
    sender.send(rt, item).ok().expect(rt, "the mail is sent");
}

fn list_of(rt: &impl Abort, alloc: Global, bytes: &[u8]) -> ByteList {
    ByteList::of(bytes.to_vec(alloc).expect(rt, "memory for bytes"))
}

// A channel with letters of these bytes.
pub(crate) fn channel_of<R: Wait + Abort>(
    rt: &R,
    alloc: Global,
    texts: &[&[u8]],
) -> (Sender<Mail>, Receiver<Mail>) {
    let (sender, receiver) = unbounded(alloc).expect(rt, "memory for a channel");
    for text in texts {
        send(rt, &sender, Mail::Bytes(list_of(rt, alloc, text)));
    }
    (sender, receiver)
}

// The end of a channel with letters of these bytes, and a Stop.
pub(crate) fn mailed<R: Wait + Abort>(rt: &R, alloc: Global, texts: &[&[u8]]) -> Receiver<Mail> {
    let (sender, receiver) = channel_of(rt, alloc, texts);
    send(rt, &sender, Mail::Stop);
    receiver
}

// Replica 1 at this horizon sends one entry: this page of device 0, with one stamp of replica 1 at
// this time.
pub(crate) const fn entry_at(horizon: u8, no: u8, time: u8) -> [u8; 44] {
    [
        0x4C, 0x32, 0x47, 0x32, 1, 0, 1, 0, 0, 0, 0, 0, 0, 0, horizon, 0, 0, 0, 0x19, 0, 0, 0, 1,
        0, 0, 0, 0, 0, 0, 0, 0, 0, no, 1, 0, 0, 0, 0, 0, 0, 0, time, 0, 1,
    ]
}

// A request of a replica at this horizon for some of the first eight buckets.
const fn request_of(number: u8, horizon: u8, request: u8) -> [u8; 27] {
    [
        0x4C, 0x32, 0x47, 0x32, 3, 0, number, 0, 0, 0, 0, 0, 0, 0, horizon, 0, 0, 0, 8, 0, 0, 0, 0,
        0, 0, 0, request,
    ]
}

// The bytes of a digest of the empty history at a horizon, from a replica.
pub(crate) fn digest_of(rt: &impl Abort, alloc: Global, number: u16, horizon: u64) -> Vec<u8> {
    let digests = digests(alloc, &History::new(alloc)).expect(rt, "memory for digests");
    let message = Message::Digest {
        sender: replica(number),
        horizon,
        digests,
    };
    encode(alloc, &message).expect(rt, "memory for the bytes")
}

// The numbers of Stops and turns after which a loop ends, and the number of items of its channel.
type Bounds = (u64, u64, u64);

const ONE_STOP: Bounds = (1, 10, 10);

// The counts of the mail by an empty machine.
fn heard<M: BatchMachine + Drop, P: Post, R: Wait + Abort>(
    rt: &R,
    alloc: Global,
    machine: M,
    receiver: Receiver<Mail>,
    post: &mut P,
    bounds: Bounds,
) -> MailReport {
    let (stops, turns, most) = bounds;
    let (turn, mut worker) = turn_and_worker(rt, alloc, machine);
    let items = MailIter::new(rt, receiver, most);
    mail_loop(rt, alloc, &turn, &mut worker, items, post, stops, turns)
}

pub(crate) const fn report(joined: u64, refused: u64, lost: u128) -> MailReport {
    MailReport {
        joined,
        refused,
        lost,
    }
}

// The counts of a node that has nothing to answer.
fn heard_alone<R: Wait + Abort>(
    rt: &R,
    alloc: Global,
    mail: Receiver<Mail>,
    bounds: Bounds,
) -> MailReport {
    let mut post = MemPost::new(alloc);
    let heard = heard(rt, alloc, fresh_node(rt, alloc), mail, &mut post, bounds);
    assert!(rt; post.given().is_empty());
    heard
}

// The mail is entries, a byte that is not a message, and a Stop. If the loop waits for a second
// Stop, the channel is closed.
#[test]
fn a_loop_ends_at_its_bounds(rt: HostRuntime) {
    let cases = [
        (ONE_STOP, report(1, 1, 0)),
        ((1, 1, 10), report(1, 0, 0)),
        ((1, 0, 10), report(0, 0, 0)),
        ((0, 10, 10), report(0, 0, 0)),
        ((2, 10, 10), report(1, 1, 0)),
        ((1, 10, 1), report(1, 0, 0)),
    ];
    for (bounds, want) in cases {
        let mail = mailed(&rt, rt.alloc(), &[&NARROW, &[0]]);
        assert!(rt; heard_alone(&rt, rt.alloc(), mail, bounds) == want);
    }
}

// Whether a channel has an item.
pub(crate) fn brings<R: Wait>(rt: &R, receiver: &Receiver<Mail>) -> bool {
    receiver.try_recv(rt).is_ok()
}

// The next message of a channel.
fn message_in<R: Wait + Abort>(rt: &R, alloc: Global, receiver: &Receiver<Mail>) -> Message {
    match receiver.try_recv(rt) {
        Ok(Mail::Bytes(bytes)) => decode(alloc, bytes.as_slice()).ok().expect(rt, "a message"),
        _ => panic!(rt; "no mail"),
    }
}

// Whether the next message of a channel has these entries, from replica 1 at horizon 0.
pub(crate) fn brings_entries<R: Wait + Abort>(
    rt: &R,
    alloc: Global,
    receiver: &Receiver<Mail>,
    wanted: &[Entry],
) -> bool {
    let Message::Entries {
        sender,
        horizon,
        entries,
    } = message_in(rt, alloc, receiver)
    else {
        return false;
    };
    sender.get() == 1 && horizon == 0 && entries.as_slice() == wanted
}

// Whether the next message of a channel is a request for exactly these buckets, from replica 1 at
// horizon 0.
pub(crate) fn brings_request<R: Wait + Abort>(
    rt: &R,
    alloc: Global,
    receiver: &Receiver<Mail>,
    wanted: u64,
) -> bool {
    let Message::Want {
        sender,
        horizon,
        request,
    } = message_in(rt, alloc, receiver)
    else {
        return false;
    };
    sender.get() == 1 && horizon == 0 && request.bits() == wanted
}

// Whether these are entries and a request with these bytes, both for replica 9.
fn are_for_nine(given: &[(ReplicaId, ByteList)], entries: &[u8], request: &[u8]) -> bool {
    let [(first, one), (second, two)] = given else {
        return false;
    };
    first.get() == 9 && second.get() == 9 && one.as_slice() == entries && two.as_slice() == request
}

// A node that has 0:1 at 10.
fn knowing(rt: &impl Abort, alloc: Global) -> Node<MemDevice> {
    let mut node = fresh_node(rt, alloc);
    assert!(rt; node.absorb(&[seen(page(1), 10, 1)]).is_ok());
    node
}

// The counts of such a node, which receives digests at a horizon.
fn heard_digest<P: Post, R: Wait + Abort>(
    rt: &R,
    alloc: Global,
    horizon: u64,
    post: &mut P,
) -> MailReport {
    let text = digest_of(rt, alloc, 9, horizon);
    let mail = mailed(rt, alloc, &[text.as_slice()]);
    heard(rt, alloc, knowing(rt, alloc), mail, post, ONE_STOP)
}

// The stamp at 10 is older than 11, so there is nothing to answer.
#[test]
fn answers_are_kept_for_their_sender(rt: HostRuntime) {
    for horizon in [0u8, 10, 11] {
        let mut post = MemPost::new(rt.alloc());
        let heard = heard_digest(&rt, rt.alloc(), u64::from(horizon), &mut post);
        let is_answered = if horizon > 10 {
            post.given().is_empty()
        } else {
            are_for_nine(
                post.given(),
                &entry_at(horizon, 1, 10),
                &request_of(1, horizon, 2),
            )
        };
        assert!(rt; heard == report(1, 0, 0) && is_answered);
    }
}

// Entries are received in both formats, and the later ones bring their horizon.
#[test]
fn both_formats_come_in_one_stream(rt: HostRuntime) {
    let alloc = rt.alloc();
    let text = digest_of(&rt, alloc, 9, 0);
    let mail = mailed(&rt, alloc, &[&NARROW, &WIDE, &[0], text.as_slice()]);
    let mut post = MemPost::new(alloc);
    let heard = heard(
        &rt,
        alloc,
        fresh_node(&rt, alloc),
        mail,
        &mut post,
        ONE_STOP,
    );
    assert!(rt; heard == report(3, 1, 0));
    assert!(rt; are_for_nine(post.given(), &entry_at(12, 7, 20), &request_of(1, 12, 128)));
}

// The end of a channel as the only outbox, for a replica.
pub(crate) fn boxed(
    rt: &impl Abort,
    alloc: Global,
    number: u16,
    sender: Sender<Mail>,
) -> Vec<Outbox> {
    let replica = replica(number);
    vec![in alloc; Outbox { replica, sender }].expect(rt, "memory for an outbox")
}

// An outbox for a replica, and the other end of its channel.
pub(crate) fn outbox_of(
    rt: &impl Abort,
    alloc: Global,
    number: u16,
) -> (Vec<Outbox>, Receiver<Mail>) {
    let (sender, receiver) = unbounded(alloc).expect(rt, "memory for a channel");
    (boxed(rt, alloc, number, sender), receiver)
}

// The counts of a node for digests from replica 9, over these outboxes.
fn heard_over<R: Wait + Abort>(rt: &R, alloc: Global, boxes: Vec<Outbox>) -> MailReport {
    let mut post = Outboxes::new(rt, boxes);
    heard_digest(rt, alloc, 0, &mut post)
}

// There is no outbox, or its channel has no receiver.
#[test]
fn answers_may_be_lost(rt: HostRuntime) {
    let alloc = rt.alloc();
    assert!(rt; heard_over(&rt, alloc, Vec::new(alloc)) == report(1, 0, 2));
    let (boxes, receiver) = outbox_of(&rt, alloc, 9);
    drop(receiver);
    assert!(rt; heard_over(&rt, alloc, boxes) == report(1, 0, 2));
}

// The entry of a page that replica 1 referenced once.
fn known(no: u64, time: u64) -> [Entry; 1] {
    [entry(page(no), once(time, 1))]
}

// Of two outboxes for replica 9 the first gets the entries and the request, and nothing more.
#[test]
fn answers_reach_the_first_outbox_of_a_number(rt: HostRuntime) {
    let alloc = rt.alloc();
    let (mut boxes, first) = outbox_of(&rt, alloc, 9);
    let (mut others, second) = outbox_of(&rt, alloc, 9);
    boxes
        .append(&mut others)
        .expect(&rt, "memory for two outboxes");
    assert!(rt; heard_over(&rt, alloc, boxes) == report(1, 0, 0));
    assert!(rt; brings_entries(&rt, alloc, &first, &known(1, 10)));
    assert!(rt; brings_request(&rt, alloc, &first, 2));
    assert!(rt; !brings(&rt, &first) && !brings(&rt, &second));
}

// A post that gives back the item of one index, from 0, and forwards all others.
#[derive(Drop)]
struct AllBut<P: Post + Drop> {
    place: u64,
    asked: u64,
    rest: P,
}

impl<P: Post + Drop> Post for AllBut<P> {
    ghost use Rattle.std.specs.Prelude.{false, []};

    ghost keeps = { false };

    ghost given = { λ _. [] };

    fn post(&mut self, to: ReplicaId, bytes: ByteList) -> Result<(), ByteList> {
        let at = self.asked;
        self.asked = at.wrapping_add(1);
        if at == self.place {
            return Err(bytes);
        }
        self.rest.post(to, bytes)
    }
}

// A node receives 0:1 and 0:2, then the digests of a replica without a history, and its request for
// bucket 2. Returns whether all answers reach that replica but the one of this index, and whether
// this many are lost.
fn are_answered<R: Wait + Abort>(
    rt: &R,
    alloc: Global,
    number: u8,
    place: u64,
    lost: u128,
) -> bool {
    let text = digest_of(rt, alloc, u16::from(number), 0);
    let (one, two, request) = (
        entry_at(0, 1, 10),
        entry_at(0, 2, 20),
        request_of(number, 0, 4),
    );
    let mail = mailed(rt, alloc, &[&one, &two, text.as_slice(), &request]);
    let (boxes, receiver) = outbox_of(rt, alloc, u16::from(number));
    let rest = Outboxes::new(rt, boxes);
    let mut post = AllBut {
        place,
        asked: 0,
        rest,
    };
    let heard = heard(rt, alloc, fresh_node(rt, alloc), mail, &mut post, ONE_STOP);
    heard == report(4, 0, lost)
        && brings_entries(rt, alloc, &receiver, &known(1, 10))
        && (place == 1 || brings_entries(rt, alloc, &receiver, &known(2, 20)))
        && brings_request(rt, alloc, &receiver, 6)
        && brings_entries(rt, alloc, &receiver, &known(2, 20))
        && !brings(rt, &receiver)
}

#[test]
fn answers_reach_whoever_asks(rt: HostRuntime) {
    for number in [2, 9, 64] {
        assert!(rt; are_answered(&rt, rt.alloc(), number, 4, 0));
    }
}

// Of the three answers to the digests the second is refused.
#[test]
fn what_a_post_refuses_is_lost(rt: HostRuntime) {
    assert!(rt; are_answered(&rt, rt.alloc(), 9, 1, 1));
}

// A thousand pages of bucket 1, with two stamps each.
fn thousand(rt: &impl Abort, alloc: Global) -> EntryList {
    let mut entries = Vec::new(alloc);
    for place in 0..1000 {
        let hist = twice((place + 2000, 2), (place + 1, 1));
        entries
            .push(entry(page(64 * place + 1), hist))
            .expect(rt, "memory for an entry");
    }
    EntryList::of(entries).ok().expect(rt, "the pages rise")
}

// The longest message is received and sent: a header of 19 bytes, a count of 4, and a thousand
// entries of 31.
#[test]
fn a_thousand_entries_go_through_an_outbox(rt: HostRuntime) {
    let alloc = rt.alloc();
    let message = Message::Entries {
        sender: replica(2),
        horizon: 0,
        entries: thousand(&rt, alloc),
    };
    let text = encode(alloc, &message).expect(&rt, "memory for the bytes");
    assert!(rt; text.len() == 31_023);
    let mail = mailed(&rt, alloc, &[text.as_slice(), &request_of(9, 0, 2)]);
    let (boxes, receiver) = outbox_of(&rt, alloc, 9);
    let mut post = Outboxes::new(&rt, boxes);
    assert!(rt;
        heard(
            &rt,
            alloc,
            fresh_node(&rt, alloc),
            mail,
            &mut post,
            ONE_STOP
        ) == report(2, 0, 0)
    );
    assert!(rt; brings_entries(&rt, alloc, &receiver, thousand(&rt, alloc).as_slice()));
}

// Whether this item is these bytes.
fn is_letter(item: Mail, wanted: &[u8]) -> bool {
    match item {
        Mail::Bytes(bytes) => bytes.as_slice() == wanted,
        Mail::Stop => false,
    }
}

#[test]
fn a_thousand_items_come_in_order(rt: HostRuntime) {
    let (sender, receiver) = channel_of(&rt, rt.alloc(), &[]);
    for number in 0..1000u16 {
        let bytes = list_of(&rt, rt.alloc(), &number.to_be_bytes());
        send(&rt, &sender, Mail::Bytes(bytes));
    }
    drop(sender);
    let mut next = 0u16;
    for item in MailIter::new(&rt, receiver, 1000) {
        assert!(rt; is_letter(item, &next.to_be_bytes()));
        next = next.wrapping_add(1);
    }
    assert!(rt; next == 1000);
}

// The slot of the first page that is loaded into a pool.
const FIRST: Slot = Slot {
    index: 0,
    generation: 1,
};

// A node whose only frame has page 3, of which three bytes are written. It stays pinned if `stays`
// is true.
fn filled(rt: &impl Abort, alloc: Global, stays: bool) -> Node<MemDevice> {
    let device = memory(alloc, 8).expect(rt, "memory for a device");
    let mut node = node_over(rt, alloc, 1, 1, device);
    let slot = node.pin(page(3)).ok().expect(rt, "the page comes in");
    node.write(slot, 0, &[7, 8, 9])
        .ok()
        .expect(rt, "the bytes are written");
    if !stays {
        node.unpin(slot).ok().expect(rt, "the fix goes");
    }
    node
}

// Such a node after a loop over an entry, digests and a request.
fn left_by_a_loop<R: Wait + Abort>(rt: &R, alloc: Global, stays: bool) -> Node<MemDevice> {
    let (turn, mut worker) = turn_and_worker(rt, alloc, filled(rt, alloc, stays));
    let text = digest_of(rt, alloc, 9, 0);
    let (one, request) = (entry_at(0, 1, 10), request_of(9, 0, 2));
    let mail = mailed(rt, alloc, &[&one, text.as_slice(), &request]);
    let items = MailIter::new(rt, mail, 10);
    let mut post = MemPost::new(alloc);
    mail_loop(rt, alloc, &turn, &mut worker, items, &mut post, 1, 10);
    let (pass, _buffer) = worker.into_parts();
    turn.close(pass).expect(rt, "each ticket was passed on")
}

// Whether the frame still has that page, which was never evicted, with its bytes, and pinned if
// `stays` is true.
fn is_as_filled(mut node: Node<MemDevice>, stays: bool) -> bool {
    let had_fix = node.unpin(FIRST).is_ok();
    let has_more = node.unpin(FIRST).is_ok();
    let slot = node.pin(page(3)).ok();
    let Ok(bytes) = node.read(FIRST, 0, 5) else {
        return false;
    };
    had_fix == stays
        && !has_more
        && slot == Some(FIRST)
        && bytes.as_slice() == [7, 8, 9, 0, 0].as_slice()
}

// A call that the loop would make through another pass, which it drops, is in no report, but would
// be visible in the history or in the pool.
#[test]
fn a_loop_makes_no_other_call(rt: HostRuntime) {
    for stays in [false, true] {
        let node = left_by_a_loop(&rt, rt.alloc(), stays);
        let history = node.history();
        assert!(rt;
            history.len() == 1 && history.at(0) == Some(known(1, 10)[0]) && history.horizon() == 0
        );
        assert!(rt; is_as_filled(node, stays));
    }
}
