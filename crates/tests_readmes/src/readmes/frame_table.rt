//! The call that the README of `warm_frame_table` shows.
use anyhow::Result;
use std::alloc::Global;
use std::process::Abort;
use warm_frame_table::Frames;
use warm_rank::key_of;
use warm_stamps::PageId;

fn one_call(rt: &impl Abort, alloc: Global) -> Result<()> {
    let page = PageId { dev: 0, no: 5 };
    let mut frames = Frames::new(alloc, 2, 1)?; // two frames of one byte
    let mut bytes = Vec::from_elem(alloc, 7, 1)?;
    frames.install(0, page, key_of(page, None), 0, &mut bytes);
    assert!(rt; frames.find(page) == Some(0));
    assert!(rt; frames.least() == Some(0)); // the victim's
    Ok(())
}

#[test]
fn one_call_of_warm_frame_table(rt: HostRuntime) {
    assert!(rt; one_call(&rt, rt.alloc()).is_ok());
}
