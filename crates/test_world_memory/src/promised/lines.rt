//! Lines of a schedule whose parsing is allocation-free: all but `put`.
use std::alloc::Global;
use std::io::Print;
use test_kit::cases::{Ended, Met, takes_none};
use warm_player::{LineFault, parse_line};

const LINES: [&str; 18] = [
    "",
    "  # said to nobody",
    "ref 1 2 3:4 5",
    "ref 1 2 3:18446744073709551615 5",
    "flush 1 2",
    "send 1 63",
    "send 1 0 3:4",
    "offer 1",
    "deliver 1 2",
    "pin 1 3:4",
    "unpin 1 2.3",
    "get 1 2.3 4 5",
    "victim 1",
    "warm 1 2",
    "warmstep 1",
    "restart 1",
    "horizon 1 2",
    "show 1",
];

pub(crate) fn rows<P: Print>(rt: &P, met: &mut Met, alloc: Global) -> Result<(), Ended> {
    for line in LINES {
        takes_none(rt, "parse_line")?;
        met.holds(
            parse_line(alloc, line.as_bytes()).is_ok(),
            "a line is refused",
        )?;
    }
    takes_none(rt, "parse_line of a bad line")?;
    let bad = matches!(parse_line(alloc, b"put 1 2.3 4 5"), Err(LineFault::Bad));
    met.holds(bad, "half a pair of digits is no byte")
}
