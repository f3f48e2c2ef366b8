//! Events of each kind, which are refused only because of an allocation failure.
use std::alloc::Global;
use test_kit::cases::Ended;
use test_kit::page;
use warm_pool::Slot;
use warm_stamps::{Bucket, ByteList, PageId};
use warm_world::Event;

// The number of events. Replica 1 sends its pages to replica 2, and 2 sends its own to 1.
pub(crate) const EVENTS: usize = 41;

// The slot of 0:7 at replica 1, the first page that is loaded.
const FIRST: Slot = Slot {
    index: 0,
    generation: 1,
};

// Whether the event of an index is documented as allocation-free, as a `Refer` into a buffer that
// is not full is.
pub(crate) fn is_free(place: usize) -> bool {
    matches!(
        place,
        0 | 1 | 7 | 14 | 15 | 17 | 18 | 22 | 26 | 30 | 32 | 36
    )
}

fn first_bucket() -> Result<Bucket, Ended> {
    match Bucket::new(1) {
        Some(bucket) => Ok(bucket),
        None => Err(Ended::Broken),
    }
}

fn put(alloc: Global) -> Result<Event, Ended> {
    let mut bytes = Vec::new(alloc);
    bytes.extend_from_slice(b"warm")?;
    Ok(Event::Put(1, FIRST, 2, ByteList::of(bytes)))
}

// The events by which replicas take in references.
fn gossip_at(place: usize) -> Result<Event, Ended> {
    Ok(match place {
        0 => Event::Refer(1, 1, page(1), 10),
        1 => Event::Refer(1, 1, page(65), 20),
        // over a full buffer of two
        2 => Event::Refer(1, 1, page(2), 30),
        3 => Event::Flush(1, 1),
        4 => Event::Send(1, first_bucket()?, None),
        5 => Event::Offer(1),
        6 => Event::Deliver(2, 1),
        7 => Event::Refer(2, 1, page(3), 40),
        8 => Event::Flush(2, 1),
        // digests, answered by the differing entries and by a request
        9 => Event::Deliver(2, 2),
        10 => Event::Deliver(1, 3),
        11 => Event::Deliver(1, 4),
        12 => Event::Deliver(2, 5),
        _ => Event::Show(1),
    })
}

// Those of a replica's pool.
fn pool_at(alloc: Global, place: usize) -> Result<Event, Ended> {
    Ok(match place {
        14 => Event::Pin(1, page(7)),
        15 => put(alloc)?,
        16 => Event::Get(1, FIRST, 0, 6),
        17 => Event::Unpin(1, FIRST),
        18 => Event::Victim(1),
        19 => Event::Warm(2, 2),
        20 => Event::WarmStep(2),
        21 => Event::Show(2),
        22 => Event::Restart(1),
        23 => Event::Show(1),
        24 => Event::Offer(1),
        _ => Event::Deliver(2, 6),
    })
}

// Those by which horizons rise. Replica 1 was restarted, and 7 messages were sent.
fn horizon_at(place: usize) -> Event {
    match place {
        26 => Event::Horizon(1, 25),
        27 => Event::Offer(1),
        // digests with a greater horizon: of pages 2 and 3, which are not older, messages 9 and 10,
        // and message 11 is a request
        28 => Event::Deliver(2, 8),
        29 => Event::Show(2),
        30 => Event::Horizon(2, 35),
        31 => Event::Deliver(1, 9),
        32 => Event::Refer(1, 1, page(4), 50),
        33 => Event::Flush(1, 1),
        34 => Event::Offer(2),
        // page 2 is older than the horizon of these digests: message 13 has page 4, and message 14
        // is a request
        35 => Event::Deliver(1, 12),
        36 => Event::Horizon(2, 45),
        37 => Event::Deliver(2, 13),
        // digests without a horizon: message 15 has page 4, and message 16 is a request with the
        // horizon 45
        38 => Event::Deliver(2, 2),
        39 => Event::Deliver(1, 16),
        _ => Event::Show(1),
    }
}

// The event of a place.
pub(crate) fn event_at(alloc: Global, place: usize) -> Result<Event, Ended> {
    if place < 14 {
        return gossip_at(place);
    }
    if place < 26 {
        return pool_at(alloc, place);
    }
    Ok(horizon_at(place))
}

// All events, in their order.
pub(crate) fn all_events(alloc: Global) -> Result<Vec<Event>, Ended> {
    let mut events = Vec::new(alloc);
    for place in 0..EVENTS {
        let Ok(()) = events.push(event_at(alloc, place)?) else {
            return Err(Ended::NoMemory);
        };
    }
    Ok(events)
}
