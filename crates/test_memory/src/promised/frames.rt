//! Frames whose decoding is allocation-free.
use std::alloc::Global;
use std::io::Print;
use test_kit::cases::{Ended, Met, takes_none};
use warm_frames::{Message, decode};

// A frame of no entries by sender 3, with horizon 5.
const NOTHING: [u8; 23] = [
    0x4C, 0x32, 0x47, 0x32, 1, 0, 3, 0, 0, 0, 0, 0, 0, 0, 5, 0, 0, 0, 4, 0, 0, 0, 0,
];

// A request of sender 2 for buckets 1 and 2, with horizon 5.
const REQUEST: [u8; 27] = [
    0x4C, 0x32, 0x47, 0x32, 3, 0, 2, 0, 0, 0, 0, 0, 0, 0, 5, 0, 0, 0, 8, 0, 0, 0, 0, 0, 0, 0, 6,
];

// The header of a frame of digests by sender 1 with horizon 5. The frame has 2,067 bytes.
const DIGESTS: [u8; 19] = [
    0x4C, 0x32, 0x47, 0x32, 2, 0, 1, 0, 0, 0, 0, 0, 0, 0, 5, 0, 0, 8, 0,
];

// The same in the narrow format, which has no horizon and is only read.
const NARROW_NOTHING: [u8; 15] = [0x4C, 0x32, 0x47, 0x31, 1, 0, 3, 0, 0, 0, 4, 0, 0, 0, 0];

const NARROW_REQUEST: [u8; 19] = [
    0x4C, 0x32, 0x47, 0x31, 3, 0, 2, 0, 0, 0, 8, 0, 0, 0, 0, 0, 0, 0, 6,
];

const NARROW_DIGESTS: [u8; 11] = [0x4C, 0x32, 0x47, 0x31, 2, 0, 1, 0, 0, 8, 0];

// Whether the bytes are a frame of no entries, with this horizon.
fn is_nothing(alloc: Global, bytes: &[u8], since: u64) -> bool {
    matches!(decode(alloc, bytes), Ok(Message::Entries { horizon, .. }) if horizon == since)
}

fn is_request(alloc: Global, bytes: &[u8], since: u64) -> bool {
    let Ok(message) = decode(alloc, bytes) else {
        return false;
    };
    let buckets = match &message {
        Message::Want { request, .. } => request.bits(),
        _ => return false,
    };
    message.horizon() == since && buckets == 6
}

fn is_digests(alloc: Global, bytes: &[u8], since: u64) -> bool {
    matches!(decode(alloc, bytes), Ok(Message::Digest { horizon, .. }) if horizon == since)
}

fn narrow<P: Print>(rt: &P, met: &mut Met, alloc: Global) -> Result<(), Ended> {
    takes_none(rt, "decode of no narrow entries")?;
    met.holds(
        is_nothing(alloc, &NARROW_NOTHING, 0),
        "no narrow entries are refused",
    )?;
    takes_none(rt, "decode of a narrow request")?;
    met.holds(
        is_request(alloc, &NARROW_REQUEST, 0),
        "a narrow request is refused",
    )?;
    let mut bytes = [7u8; 2059];
    bytes[..11].copy_from_slice(&NARROW_DIGESTS);
    takes_none(rt, "decode of narrow digests")?;
    met.holds(is_digests(alloc, &bytes, 0), "narrow digests are refused")
}

pub(crate) fn rows<P: Print>(rt: &P, met: &mut Met, alloc: Global) -> Result<(), Ended> {
    takes_none(rt, "decode of no entries")?;
    met.holds(is_nothing(alloc, &NOTHING, 5), "no entries are refused")?;
    takes_none(rt, "decode of a request")?;
    met.holds(is_request(alloc, &REQUEST, 5), "a request is refused")?;
    let mut bytes = [7u8; 2067];
    bytes[..19].copy_from_slice(&DIGESTS);
    takes_none(rt, "decode of digests")?;
    met.holds(is_digests(alloc, &bytes, 5), "digests are refused")?;
    narrow(rt, met, alloc)
}
