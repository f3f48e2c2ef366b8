//! Readers that give bytes one by one, are interrupted or fail, and writers that take few bytes or
//! fail: what a dump makes of them.
use crate::dumps::{FIRST, SECOND, WHOLE, dump_of_four, four_pages};
use crate::rows::row_holds;
use std::alloc::Global;
use std::process::Abort;
use test_kit::{
    BrokenReader, CountingReader, FullWriter, MarkingWriter, TrickleReader, are_equal, replica,
};
use warm_dump::{DUMP_READ_SIZE, DumpError, DumpFault, read_dump, write_dump};

#[test]
fn a_dump_may_come_in_bytes(rt: HostRuntime) {
    let text = dump_of_four(&rt, rt.alloc());
    let mut reader = TrickleReader::new(&text);
    let read = read_dump(rt.alloc(), &mut reader).expect(&rt, "a dump");
    assert!(rt; are_equal(&read, &four_pages(&rt, rt.alloc())));
}

// Why a reader is refused that gives this number of bytes and then fails.
fn broken_after(alloc: Global, text: &[u8], len: usize) -> Option<DumpError> {
    let (begin, _) = text.split_at(len.min(text.len()));
    let mut reader = BrokenReader::new(begin);
    read_dump(alloc, &mut reader).err()
}

// How many bytes come before the reader fails, and where the whole frames among them end.
const BREAKS: [(usize, usize); 8] = [
    (0, 0),
    (1, 0),
    (95, 0),
    (FIRST, FIRST),
    (149, FIRST),
    (SECOND, SECOND),
    (2216, SECOND),
    (WHOLE, WHOLE),
];

#[test]
fn a_failed_read_is_a_read_fault(rt: HostRuntime) {
    let text = dump_of_four(&rt, rt.alloc());
    for (len, at) in BREAKS {
        let at = at as u64;
        let fault = DumpFault::ReadFault;
        let broken = broken_after(rt.alloc(), &text, len);
        row_holds(&rt, len, broken == Some(DumpError { at, fault }));
    }
}

#[test]
fn a_read_asks_for_65_536_bytes(rt: HostRuntime) {
    let text = dump_of_four(&rt, rt.alloc());
    let mut reader = CountingReader::new(&text);
    let read = read_dump(rt.alloc(), &mut reader).expect(&rt, "a dump");
    assert!(rt; read.len() == 4);
    assert!(rt; reader.most() == 65_536 && DUMP_READ_SIZE == 65_536);
}

fn written_in(rt: &impl Abort, alloc: Global, left: usize) -> Result<(), DumpFault> {
    let mut writer = FullWriter::new(left);
    write_dump(alloc, &mut writer, replica(1), &four_pages(rt, alloc))
}

// Each write may fail, and after the last one the flush.
#[test]
fn a_failed_write_is_a_write_fault(rt: HostRuntime) {
    for left in 0..=WHOLE {
        let written = written_in(&rt, rt.alloc(), left);
        row_holds(&rt, left, written == Err(DumpFault::WriteFault));
    }
    assert!(rt; written_in(&rt, rt.alloc(), 2218) == Ok(()));
}

#[test]
fn a_dump_is_flushed_last(rt: HostRuntime) {
    let mut writer = MarkingWriter::new(rt.alloc());
    let history = four_pages(&rt, rt.alloc());
    let written = write_dump(rt.alloc(), &mut writer, replica(1), &history);
    let want = dump_of_four(&rt, rt.alloc());
    assert!(rt; written == Ok(()));
    assert!(rt; writer.taken().strip_suffix(b"|") == Some(want.as_slice()));
}
