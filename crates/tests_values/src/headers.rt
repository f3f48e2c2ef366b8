//! Limits of the fields of a header, in both formats: what is refused, by `decode` and by a
//! decoder, before the body is read.
use crate::bytes::{fault, row_holds};
use std::alloc::Global;
use warm_frames::{Decoder, FrameFault};

// A header of the narrow format.
fn narrow_header(kind: u8, sender: u16, len: u32) -> [u8; 11] {
    let mut bytes = [0x4C, 0x32, 0x47, 0x31, kind, 0, 0, 0, 0, 0, 0];
    bytes[5..7].copy_from_slice(&sender.to_be_bytes());
    bytes[7..].copy_from_slice(&len.to_be_bytes());
    bytes
}

// A header of the wide format.
fn wide_header(kind: u8, sender: u16, horizon: u64, len: u32) -> [u8; 19] {
    let mut bytes = [0; 19];
    bytes[..4].copy_from_slice(&[0x4C, 0x32, 0x47, 0x32]);
    bytes[4] = kind;
    bytes[5..7].copy_from_slice(&sender.to_be_bytes());
    bytes[7..15].copy_from_slice(&horizon.to_be_bytes());
    bytes[15..].copy_from_slice(&len.to_be_bytes());
    bytes
}

// Whether a header without a body is refused with this fault. A decoder refuses it too, unless only
// the body is missing.
fn is_refused(alloc: Global, header: &[u8], want: FrameFault) -> bool {
    let fed = Decoder::new(alloc).feed(header);
    let is_fed_so = match want {
        FrameFault::Truncated => fed.is_ok(),
        _ => fed.err() == Some(want),
    };
    is_fed_so && fault(alloc, header) == Some(want)
}

// Whether a header with these fields is refused with this fault in the wide format, with the least
// and with the greatest horizon.
fn is_refused_wide(alloc: Global, kind: u8, sender: u16, len: u32, want: FrameFault) -> bool {
    is_refused(alloc, &wide_header(kind, sender, 0, len), want)
        && is_refused(alloc, &wide_header(kind, sender, u64::MAX, len), want)
}

// The fields of a header, and why it is refused in either format. Kinds and senders just past their
// limits are tested with the frames that are cut in pieces.
const HEADERS: [(u8, u16, u32, FrameFault); 14] = [
    (4, 0, 0, FrameFault::BadKind),
    (1, 65535, 4, FrameFault::BadSender),
    (1, 0, 0, FrameFault::BadSender),
    (1, 64, 4, FrameFault::Truncated),
    (1, 1, 0, FrameFault::BadLength),
    (1, 1, 3, FrameFault::BadLength),
    (1, 1, 27_004, FrameFault::Truncated),
    (1, 1, 4_294_967_295, FrameFault::BadLength),
    (2, 1, 2047, FrameFault::BadLength),
    (2, 1, 2048, FrameFault::Truncated),
    (2, 1, 2049, FrameFault::BadLength),
    (3, 1, 7, FrameFault::BadLength),
    (3, 1, 8, FrameFault::Truncated),
    (3, 1, 9, FrameFault::BadLength),
];

#[test]
fn header_fields_have_limits(rt: HostRuntime) {
    for (at, (kind, sender, len, want)) in HEADERS.iter().enumerate() {
        let narrow = narrow_header(*kind, *sender, *len);
        row_holds(&rt, at, is_refused(rt.alloc(), &narrow, *want));
        let is_wide = is_refused_wide(rt.alloc(), *kind, *sender, *len, *want);
        row_holds(&rt, at, is_wide);
    }
}

#[test]
fn bodies_of_entries_have_a_limit_in_each_format(rt: HostRuntime) {
    let narrow = narrow_header(1, 1, 27_005);
    assert!(rt; is_refused(rt.alloc(), &narrow, FrameFault::BadLength));
    assert!(rt; is_refused_wide(rt.alloc(), 1, 1, 27_005, FrameFault::Truncated));
    assert!(rt; is_refused_wide(rt.alloc(), 1, 1, 31_004, FrameFault::Truncated));
    assert!(rt; is_refused_wide(rt.alloc(), 1, 1, 31_005, FrameFault::BadLength));
}
