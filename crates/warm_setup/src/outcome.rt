//! How a run of the program ends: the exit status, and the line on standard error.

ghost use Rattle.std.specs.Prelude.{◌≡◌, OnOk};
ghost use Rattle.std.specs.Io.KnownBytes.{Appends};
ghost use Rattle.warm_setup.specs.Endings.{exit_status, status_of_command, error_line};
ghost use Rattle.warm_setup.specs.Endings.{line_of_command, number_named};

use crate::command::CmdFault;
use crate::path::PathText;
use crate::setup::SetupFault;
use clap::error::ErrorKind;
use std::io::{self, Write};
use std::marker::Model;
use thiserror::Error;
use warm_world::PlayFault;

/// Why a run of the program did not reach its end, by the part of the run that found it. The parts
/// run in this order: the command line, the setup file, its text, the schedule's file, the devices
/// (by replica, then by device), the play.
#[derive(Debug, Drop, Error)]
pub enum ProgramFault {
    /// The words gave no command.
    #[error("{0}")]
    Command(CmdFault),
    /// The file of this name could not be opened; for the setup file, also: could not be read.
    #[error("cannot open {0}")]
    CannotOpen(PathText),
    /// The setup file's text is not a setup.
    #[error("setup: {0}")]
    Setup(SetupFault),
    /// The play stopped.
    #[error("{0}")]
    Play(PlayFault),
}

impl From<CmdFault> for ProgramFault {
    ghost use Rattle.std.specs.Prelude.{◌≡◌};
    ghost use Rattle.warm_setup.specs.declared.outcome.ProgramFault.TheVariants.{Command};

    ghost from_gives = { λ fault ended. ended ≡ Command fault };

    fn from(fault: CmdFault) -> ProgramFault {
        ProgramFault::Command(fault)
    }
}

impl From<SetupFault> for ProgramFault {
    ghost use Rattle.std.specs.Prelude.{◌≡◌};
    ghost use Rattle.warm_setup.specs.declared.outcome.ProgramFault.TheVariants.{Setup};

    ghost from_gives = { λ fault ended. ended ≡ Setup fault };

    fn from(fault: SetupFault) -> ProgramFault {
        ProgramFault::Setup(fault)
    }
}

impl From<PlayFault> for ProgramFault {
    ghost use Rattle.std.specs.Prelude.{◌≡◌};
    ghost use Rattle.warm_setup.specs.declared.outcome.ProgramFault.TheVariants.{Play};

    ghost from_gives = { λ fault ended. ended ≡ Play fault };

    fn from(fault: PlayFault) -> ProgramFault {
        ProgramFault::Play(fault)
    }
}

/// The end of the program.
#[derive(Drop)]
pub struct RunOutcome<'a> {
    /// The exit status.
    pub status: u8,
    /// The text for standard error, besides clap's own text.
    pub line: ErrorLine<'a>,
}

/// One line of text with its end, or nothing. Contracts see its bytes.
#[derive(Drop)]
pub struct ErrorLine<'a> {
    opening: &'a str,
    subject: &'a str,
    number: Option<u64>,
    end: &'a str,
}

impl<'a> Model for ErrorLine<'a> {
    ghost use Rattle.std.specs.Prelude.{List, ℕ, ◌++◌};
    ghost use Rattle.warm_setup.specs.Endings.{number_text};

    ghost Value = { List ℕ };

    ghost view = { λ line. line.opening.now ++ line.subject.now ++ number_text line.number
        ++ line.end.now };
}

impl<'a> ErrorLine<'a> {
    ghost use Rattle.std.specs.Prelude.{◌≡◌, ◌++◌, OnOk, [], ◌∷◌};
    ghost use Rattle.std.specs.Io.KnownBytes.{Appends};
    ghost use Rattle.warm_setup.specs.Endings.{line_end, number_text};

    fn nothing() -> ErrorLine<'a>
        ensures { result ≡ [] }
    {
        ErrorLine {
            opening: "",
            subject: "",
            number: None,
            end: "",
        }
    }

    fn of(opening: &'a str, subject: &'a str) -> ErrorLine<'a>
        ensures { result ≡ opening.entry.now ++ subject.entry.now ++ line_end }
    {
        ErrorLine {
            opening,
            subject,
            number: None,
            end: "\n",
        }
    }

    // The same, with a number after the subject if there is one.
    fn numbered(opening: &'a str, subject: &'a str, number: Option<u64>) -> ErrorLine<'a>
        ensures { result
            ≡ opening.entry.now ++ subject.entry.now ++ number_text number ++ line_end }
    {
        ErrorLine {
            opening,
            subject,
            number,
            end: "\n",
        }
    }

    /// Writes the line. After an error it is unspecified how much of it was written.
    pub fn write_to<W: Write>(&self, writer: &mut W) -> io::Result<()>
        ensures { OnOk result (Appends (W.contents writer.old) (W.contents writer.new) self.now) }
    {
        write!(writer, "{}{}", self.opening, self.subject)?;
        if let Some(number) = self.number {
            write!(writer, " {number}")?;
        }
        write!(writer, "{}", self.end)
    }
}

fn command_status(fault: &CmdFault) -> u8
    ensures { result ≡ status_of_command fault.now }
{
    match fault {
        CmdFault::Memory => 1,
        CmdFault::Refused(error) => match error.kind() {
            ErrorKind::DisplayHelp | ErrorKind::DisplayVersion => 0,
            _ => 2,
        },
    }
}

fn command_line<'a>(fault: &'a CmdFault) -> ErrorLine<'a>
    ensures { result ≡ line_of_command fault.entry.now }
{
    match fault {
        CmdFault::Memory => ErrorLine::of("warmplay: ", "Memory"),
        CmdFault::Refused(_) => ErrorLine::nothing(),
    }
}

// The number that a play's fault names.
fn number_of(fault: PlayFault) -> Option<u64>
    ensures { result ≡ number_named fault }
{
    match fault {
        PlayFault::BadLine(number) => Some(number),
        _ => None,
    }
}

/// The exit status and the line on standard error of a run of the program:
///
/// | What happened | Status | On standard error |
/// |---|---|---|
/// | the schedule was played, bad lines and refused events included | 0 | nothing |
/// | help was requested | 0 | nothing: clap's text goes to standard output |
/// | the command line was refused | 2 | clap's text, and no line |
/// | a file could not be opened, a device's among them | 1 | `warmplay: cannot open NAME` |
/// | the setup was refused | 2 | `warmplay: setup: ` and the fault's name |
/// | the play stopped | 1 | `warmplay: ` and the fault's name; for a bad line its number follows |
/// | an allocation for the arguments failed | 1 | `warmplay: Memory` |
pub fn outcome_of<'a>(ended: &'a Result<(), ProgramFault>) -> RunOutcome<'a>
    ensures status { result.status ≡ exit_status ended.entry.now }
    ensures line { result.line ≡ error_line ended.entry.now }
{
    match ended {
        Ok(()) => RunOutcome {
            status: 0,
            line: ErrorLine::nothing(),
        },
        Err(ProgramFault::Command(fault)) => RunOutcome {
            status: command_status(fault),
            line: command_line(fault),
        },
        Err(ProgramFault::CannotOpen(name)) => RunOutcome {
            status: 1,
            line: ErrorLine::of("warmplay: cannot open ", name.as_str()),
        },
        Err(ProgramFault::Setup(fault)) => RunOutcome {
            status: 2,
            line: ErrorLine::of("warmplay: setup: ", fault.name()),
        },
        Err(ProgramFault::Play(fault)) => RunOutcome {
            status: 1,
            line: ErrorLine::numbered("warmplay: ", fault.name(), number_of(*fault)),
        },
    }
}
