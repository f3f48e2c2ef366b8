//! How a run ends: its exit status, and its line on standard error.
use std::alloc::Global;
use std::process::Abort;
use warm_setup::{
    CmdFault, PathText, ProgramFault, SetupFault, command_of, non_utf8_argument, outcome_of,
};
use warm_world::PlayFault;

// Whether a run with this end has this status and this line.
fn says(
    rt: &impl Abort,
    alloc: Global,
    ended: &Result<(), ProgramFault>,
    status: u8,
    want: &str,
) -> bool {
    let outcome = outcome_of(ended);
    let mut line: Vec<u8> = Vec::new(alloc);
    outcome
        .line
        .write_to(&mut line)
        .expect(rt, "memory for a line");
    outcome.status == status && line.as_slice() == want.as_bytes()
}

// The same, for a run that this fault ends.
fn ends(rt: &impl Abort, alloc: Global, fault: ProgramFault, status: u8, want: &str) -> bool {
    says(rt, alloc, &Err(fault), status, want)
}

const SETUPS: [(SetupFault, &str); 4] = [
    (SetupFault::Memory, "warmplay: setup: Memory\n"),
    (SetupFault::NotToml, "warmplay: setup: NotToml\n"),
    (SetupFault::BadKey, "warmplay: setup: BadKey\n"),
    (SetupFault::BadValue, "warmplay: setup: BadValue\n"),
];

const PLAYS: [(PlayFault, &str); 6] = [
    (PlayFault::Memory, "warmplay: Memory\n"),
    (PlayFault::ReadFault, "warmplay: ReadFault\n"),
    (PlayFault::WriteFault, "warmplay: WriteFault\n"),
    (PlayFault::BadLine(7), "warmplay: BadLine 7\n"),
    (PlayFault::NoThread, "warmplay: NoThread\n"),
    (PlayFault::BadDevices, "warmplay: BadDevices\n"),
];

#[test]
fn a_run_says_why_it_ends(rt: HostRuntime) {
    let alloc = rt.alloc();
    assert!(rt; says(&rt, alloc, &Ok(()), 0, ""));
    let name = PathText::copied_from(alloc, "no/such file").expect(&rt, "memory for a path");
    let want = "warmplay: cannot open no/such file\n";
    assert!(rt; ends(&rt, alloc, ProgramFault::CannotOpen(name), 1, want));
    for (fault, want) in SETUPS {
        assert!(rt; ends(&rt, alloc, ProgramFault::Setup(fault), 2, want));
    }
    for (fault, want) in PLAYS {
        assert!(rt; ends(&rt, alloc, ProgramFault::Play(fault), 1, want));
    }
}

// Whether a run with this word is refused with this status, and with no line of its own.
fn refuses(rt: &impl Abort, alloc: Global, word: &str, status: u8) -> bool {
    let fault = command_of(alloc, ["warmplay", word].as_slice())
        .err()
        .expect(rt, "a word that is refused");
    ends(rt, alloc, ProgramFault::Command(fault), status, "")
}

#[test]
fn refused_words_have_status_2_and_help_0(rt: HostRuntime) {
    let alloc = rt.alloc();
    for (word, status) in [("--help", 0), ("help", 0), ("threads", 2)] {
        assert!(rt; refuses(&rt, alloc, word, status));
    }
    assert!(rt;
        ends(
            &rt,
            alloc,
            ProgramFault::Command(non_utf8_argument(alloc)),
            2,
            ""
        )
    );
    let memory = ProgramFault::Command(CmdFault::Memory);
    assert!(rt; ends(&rt, alloc, memory, 1, "warmplay: Memory\n"));
}
