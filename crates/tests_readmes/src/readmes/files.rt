//! The call that the README of `warm_dump` shows.
use anyhow::Result;
use std::alloc::Global;
use std::process::Abort;
use test_kit::{history_of, page};
use warm_dump::{DumpError, DumpFault, read_dump, write_dump};
use warm_stamps::ReplicaId;

fn one_call(rt: &impl Abort, alloc: Global) -> Result<()> {
    let history = history_of(alloc, &[(0, 1, 10, 1), (0, 1, 20, 1)])?; // of test_kit
    let mut file = Vec::new(alloc); // any writer
    write_dump(alloc, &mut file, ReplicaId::new(1)?, &history)?;
    let mut reader = file.as_slice(); // any reader
    let read = read_dump(alloc, &mut reader)?;
    assert!(rt; read.len() == 1 && read.get(page(1)) == history.get(page(1)));
    let mut cut = file.as_slice().get(..60).unwrap_or(&[]);
    let fault = read_dump(alloc, &mut cut).err();
    assert!(rt;
        fault
            == Some(DumpError {
                at: 54,
                fault: DumpFault::CutShort
            })
    );
    Ok(())
}

#[test]
fn one_call_of_warm_dump(rt: HostRuntime) {
    assert!(rt; one_call(&rt, rt.alloc()).is_ok());
}
