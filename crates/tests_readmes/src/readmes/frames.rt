//! The call that the README of `warm_frames` shows.
use anyhow::Result;
use std::alloc::Global;
use std::process::Abort;
use warm_frames::{Decoder, Message, decode, encode};
use warm_stamps::{BucketSet, ReplicaId};

fn one_call(rt: &impl Abort, alloc: Global) -> Result<()> {
    let sender = ReplicaId::new(1)?;
    let request = BucketSet::from_bits(0b10); // bucket 1
    let asks = Message::Want {
        sender,
        horizon: 12,
        request,
    };
    let bytes = encode(alloc, &asks)?;
    assert!(rt; bytes.len() == 27); // a header of 19 bytes, and 8
    let read = decode(alloc, &bytes)?;
    assert!(rt; matches!(read, Message::Want { request, .. } if request.bits() == 0b10));
    let (front, back) = bytes.as_slice().split_at(20); // a stream that comes in two pieces
    let mut decoder = Decoder::new(alloc);
    let part = decoder.feed(front)?;
    assert!(rt; part.taken == 20 && part.message.is_none());
    let whole = decoder.feed(back)?;
    assert!(rt; whole.taken == 7 && whole.message.is_some() && decoder.finish() == Ok(()));
    Ok(())
}

#[test]
fn one_call_of_warm_frames(rt: HostRuntime) {
    assert!(rt; one_call(&rt, rt.alloc()).is_ok());
}
