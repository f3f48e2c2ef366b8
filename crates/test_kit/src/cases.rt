//! What the programs of allocation cases share: which cases are asked for, how a case ends, and
//! what was found. `scripts/refuse-allocations` runs these programs.

ghost use Rattle.std.specs.Prelude.{◌≡◌, Ok, Err, OnOk, OnErr, if◌then◌else◌};
ghost use Rattle.test_kit.specs.declared.cases.Ended.TheVariants.{NoMemory, Broken};

use std::alloc::AllocError;
use std::env::{Env, FillError};
use std::io::{self, Print};
use std::process::ExitCode;

/// Which kinds of test cases are asked for.
#[derive(Clone, Copy)]
pub struct Kinds {
    /// Calls whose allocations may fail. They are played with each allocation failing in turn. A
    /// refused call must leave the observable state unchanged, or give back its arguments, and is
    /// then repeated, which must succeed. The output is the line of [`report`].
    pub refused: bool,
    /// Calls whose allocations are bounded: none, or what their results need. They are played
    /// twice. First the allocations between the lines of [`takes_none`], [`takes`] and [`is_done`]
    /// are counted, and those of each call are compared with its bound. Then all allocations fail
    /// from the first allocation-free call on, and no call may be refused: all that these calls
    /// need is made before them.
    pub promised: bool,
}

/// What the program's first argument asks for: `refused` or `promised`, or with no argument both.
/// It is read into a buffer: an allocation here would count among those of the calls.
///
/// `Broken` occurs if it is another word.
pub fn asked<E: Env>(rt: &E) -> Result<Kinds, Ended> {
    let mut buffer = [0u8; 16];
    let length = match rt.arg(1, &mut buffer) {
        Ok(length) => length,
        Err(FillError::NotPresent) => {
            return Ok(Kinds {
                refused: true,
                promised: true,
            });
        }
        Err(FillError::TooLong) => return Err(Ended::Broken),
    };
    match buffer.get(..length).unwrap_or(&[]) {
        b"refused" => Ok(Kinds {
            refused: true,
            promised: false,
        }),
        b"promised" => Ok(Kinds {
            refused: false,
            promised: true,
        }),
        _ => Err(Ended::Broken),
    }
}

/// The status with which a program of test cases ends.
pub fn status(ended: Result<(), Ended>) -> ExitCode {
    match ended {
        Ok(()) => ExitCode::SUCCESS,
        Err(_) => ExitCode::FAILURE,
    }
}

/// Why a test case ended early.
#[derive(Debug, Clone, Copy, PartialEq, Eq)]
pub enum Ended {
    /// An allocation failed that the test case needs before its call.
    NoMemory,
    /// A check failed.
    Broken,
}

impl From<AllocError> for Ended {
    fn from(_: AllocError) -> Ended {
        Ended::NoMemory
    }
}

/// The number of calls refused because of an allocation failure, and the check that failed, if any.
#[derive(Drop)]
pub struct Met {
    refused: u32,
    broken: &'static str,
}

impl Met {
    /// No refusals and no failed check.
    pub fn new() -> Met {
        Met {
            refused: 0,
            broken: "a number",
        }
    }

    /// Records a failed check; the test case ends.
    pub fn broken(&mut self, what: &'static str) -> Ended
        ensures { result ≡ Broken }
    {
        self.broken = what;
        Ended::Broken
    }

    /// Ends the test case if the condition is false.
    pub fn holds(&mut self, is: bool, what: &'static str) -> Result<(), Ended>
        ensures { result ≡ if is then Ok tt else Err Broken }
    {
        if is {
            return Ok(());
        }
        Err(self.broken(what))
    }

    /// Counts a call that was refused because of an allocation failure and whose effect cannot be
    /// observed.
    pub fn count(&mut self) {
        self.refused = self.refused.wrapping_add(1);
    }

    /// Counts a refused call: the reason must be an allocation failure, and the observable state
    /// must be unchanged.
    pub fn refuse(&mut self, is_as_before: bool, what: &'static str) -> Result<(), Ended>
        ensures { result ≡ if is_as_before then Ok tt else Err Broken }
    {
        self.count();
        self.holds(is_as_before, what)
    }
}

// A test case whose line could not be printed ends.
fn printed(line: io::Result<()>) -> Result<(), Ended>
    ensures ok { OnOk line (result ≡ Ok tt) }
    ensures err { OnErr line (result ≡ Err Broken) }
{
    match line {
        Ok(()) => Ok(()),
        Err(_) => Err(Ended::Broken),
    }
}

/// Prints the name of the next call, which is allocation-free. Allocations up to the next line are
/// counted for that call.
///
/// `Broken` occurs if nothing could be printed.
pub fn takes_none<P: Print>(rt: &P, call: &str) -> Result<(), Ended> {
    printed(println!(rt; "takes no memory: {call}"))
}

/// Prints the name of the next call, which allocates, and the size of its data, from which a bound
/// of its allocations is computed. Allocations up to the next line are counted for that call.
///
/// `Broken` occurs if nothing could be printed.
pub fn takes<P: Print>(rt: &P, size: usize, call: &str) -> Result<(), Ended> {
    printed(println!(rt; "takes memory for {size}: {call}"))
}

/// Prints that the last call has returned. Allocations after it prepare the next call, and are not
/// counted.
///
/// `Broken` occurs if nothing could be printed.
pub fn is_done<P: Print>(rt: &P) -> Result<(), Ended> {
    printed(println!(rt; "done"))
}

// Prints how the test cases ended.
fn print_end<P: Print>(rt: &P, met: &Met, ended: Result<(), Ended>) -> io::Result<()> {
    match ended {
        Ok(()) => println!(rt; "all rows hold, {} calls refused", met.refused),
        Err(Ended::NoMemory) => println!(rt; "no memory for a row"),
        Err(Ended::Broken) => println!(rt; "broken: {}", met.broken),
    }
}

/// Prints how the test cases ended.
///
/// `Broken` occurs if a check failed, or nothing could be printed.
pub fn report<P: Print>(rt: &P, met: &Met, ended: Result<(), Ended>) -> Result<(), Ended> {
    printed(print_end(rt, met, ended))?;
    match ended {
        Err(Ended::Broken) => Err(Ended::Broken),
        _ => Ok(()),
    }
}
