//! The command line: `warmplay play [FILE] [--setup FILE]`,
//! `warmplay random --seed S --events N [--setup FILE]` and
//! `warmplay threads FILE [--setup FILE]`.

ghost use Rattle.std.specs.Prelude.{◌≡◌, IfOk, Some, map, option_map, option_and_then, codes, List};
ghost use Rattle.std.specs.Prelude.{ℕ, ◌-◌, ◌^◌, false};
ghost use Rattle.clap.specs.Words.{app_of, found_of, rows_of, rule_of, subcommand_of};
ghost use Rattle.clap.specs.Words.{subcommand_rows_of, FailsBy};
ghost use Rattle.clap.specs.Faults.{fault_of};
ghost use Rattle.clap.specs.declared.builder.Command.TheViews.{out-Command};
ghost use Rattle.warm_setup.specs.Endings.{command_fault_code, command_fault_name};
ghost use Rattle.warm_setup.specs.Words.{with_play, with_random, setup, number, argument_number};
ghost use Rattle.warm_setup.specs.Words.{play, random, random_by, threads, threads_by, warmplay};
ghost use Rattle.warm_setup.specs.Words.{command_by, Answers, IsRefusal};
ghost use Rattle.warm_setup.specs.WordsView.{command_for};

use crate::path::PathText;
use clap::builder::ValueParser;
use clap::error::ErrorKind;
use clap::{Arg, ArgMatches, Command};
use std::alloc::{AllocError, Global};
use std::convert::AsStr;
use thiserror::Error;

/// The maximum number of lines of a random schedule.
pub const MAX_EVENTS: u64 = 1_000_000;

/// The command that the words request.
#[derive(Debug, Drop)]
pub enum Cmd {
    /// To play the schedule in `file`, or standard input if there is none, with the setup in
    /// `setup`, or the defaults.
    Play {
        file: Option<PathText>,
        setup: Option<PathText>,
    },
    /// To write the schedule of `events` lines, at most [`MAX_EVENTS`], that this seed gives with
    /// the setup in `setup`, or the defaults.
    Random {
        seed: u64,
        events: u32,
        setup: Option<PathText>,
    },
    /// To play the schedule in `file` by threads, with the setup in `setup`, or the defaults.
    Threads {
        file: PathText,
        setup: Option<PathText>,
    },
}

/// Why the words do not give a command.
#[derive(Debug, Drop, Error)]
pub enum CmdFault {
    /// An allocation failed. It says nothing about the words.
    #[error("Memory")]
    Memory,
    /// A mistake in the words, or a request for help. The error has the text for the user.
    #[error("{0}")]
    Refused(clap::Error),
}

impl CmdFault {
    /// The fault's number: 1 Memory, 2 Refused.
    pub fn code(&self) -> u8
        ensures { result ≡ command_fault_code self.now }
    {
        match self {
            CmdFault::Memory => 1,
            CmdFault::Refused(_) => 2,
        }
    }

    /// The fault's name.
    pub fn name(&self) -> &'static str
        ensures { result.now ≡ command_fault_name self.now }
    {
        match self {
            CmdFault::Memory => "Memory",
            CmdFault::Refused(_) => "Refused",
        }
    }
}

impl From<AllocError> for CmdFault {
    ghost use Rattle.std.specs.Prelude.{◌≡◌};
    ghost use Rattle.warm_setup.specs.declared.command.CmdFault.TheVariants.{Memory};

    ghost from_gives = { λ _ fault. fault ≡ Memory };

    fn from(_error: AllocError) -> CmdFault {
        CmdFault::Memory
    }
}

// An allocation failure of clap is the program's `Memory`.
impl From<clap::Error> for CmdFault {
    ghost use Rattle.warm_setup.specs.WordsView.{IsClapFault};

    ghost from_gives = { IsClapFault };

    fn from(error: clap::Error) -> CmdFault {
        match error.kind() {
            ErrorKind::OutOfMemory => CmdFault::Memory,
            _ => CmdFault::Refused(error),
        }
    }
}

// The command that the words request, as text.
#[derive(Clone, Copy)]
enum BorrowedCmd<'a> {
    Play(Option<&'a str>, Option<&'a str>),
    Random(u64, u32, Option<&'a str>),
    Threads(&'a str, Option<&'a str>),
}

fn setup_argument<'a>(alloc: Global) -> Arg<'a>
    ensures rule { rule_of result ≡ setup }
    ensures local { result.global ≡ false }
{
    Arg::new(alloc, "setup")
        .value_name("FILE")
        .help("The setup, a TOML file; the defaults where it is left out")
        .long("setup")
}

fn play_command<'a>(alloc: Global) -> Result<Command<'a>, AllocError>
    ensures app { IfOk result (λ c. app_of c ≡ play) }
    ensures local { IfOk result (λ c. (out-Command c).has_globals ≡ false) }
{
    let file = Arg::new(alloc, "file")
        .value_name("FILE")
        .help("The schedule; standard input where it is left out");
    let play = Command::new(alloc, "play").about(
        "Play a schedule, and print what each line answers",
    );
    play.arg(file)?.arg(setup_argument(alloc))
}

// A number up to `most`, which clap checks, so that a refusal names the argument and its limits.
fn number_argument<'a>(alloc: Global, name: &'a str, help: &'a str, most: u64) -> Arg<'a>
    ensures rule { rule_of result ≡ number name.entry.now most }
    ensures local { result.global ≡ false }
{
    Arg::new(alloc, name)
        .value_name("N")
        .help(help)
        .long(name)
        .required(true)
        .value_parser(ValueParser::unsigned(0, most))
}

fn random_command<'a>(alloc: Global) -> Result<Command<'a>, AllocError>
    ensures app { IfOk result (λ c. app_of c ≡ random) }
    ensures local { IfOk result (λ c. (out-Command c).has_globals ≡ false) }
{
    let random = Command::new(alloc, "random").about(
        "Write a schedule drawn at random, the same for the same seed",
    );
    // Each argument is made where it is added: nothing else is dropped if an allocation fails.
    let seed = number_argument(alloc, "seed", "What the schedule is drawn from", u64::MAX);
    let seeded = random.arg(seed)?;
    let events = number_argument(alloc, "events", "How many lines it has", MAX_EVENTS);
    let counted = seeded.arg(events)?;
    counted.arg(setup_argument(alloc))
}

fn threads_command<'a>(alloc: Global) -> Result<Command<'a>, AllocError>
    ensures app { IfOk result (λ c. app_of c ≡ threads) }
    ensures local { IfOk result (λ c. (out-Command c).has_globals ≡ false) }
{
    let file = Arg::new(alloc, "file")
        .value_name("FILE")
        .help("The schedule, of references and flushes alone")
        .required(true);
    let threads = Command::new(alloc, "threads").about(
        "Play a schedule by threads, and print what each replica has heard of",
    );
    threads.arg(file)?.arg(setup_argument(alloc))
}

// The program's root command. Each of the next three functions adds one subcommand: in a function
// that holds several at once, all of them are dropped at each return, and its proof takes minutes.
fn root_with_play<'a>(alloc: Global) -> Result<Command<'a>, AllocError>
    ensures app { IfOk result (λ c. app_of c ≡ with_play) }
    ensures local { IfOk result (λ c. (out-Command c).has_globals ≡ false) }
{
    let play = play_command(alloc)?;
    let root = Command::new(alloc, "warmplay")
        .about("Warm-standby buffer pools that merge LRU-2 histories")
        .subcommand_required(true);
    root.subcommand(play)
}

fn root_with_random<'a>(alloc: Global) -> Result<Command<'a>, AllocError>
    ensures app { IfOk result (λ c. app_of c ≡ with_random) }
    ensures local { IfOk result (λ c. (out-Command c).has_globals ≡ false) }
{
    let root = root_with_play(alloc)?;
    let random = random_command(alloc)?;
    root.subcommand(random)
}

fn root_command<'a>(alloc: Global) -> Result<Command<'a>, AllocError>
    ensures app { IfOk result (λ c. app_of c ≡ warmplay) }
    ensures local { IfOk result (λ c. (out-Command c).has_globals ≡ false) }
{
    let root = root_with_random(alloc)?;
    let threads = threads_command(alloc)?;
    root.subcommand(threads)
}

// The matches of the words, as clap defines them for these commands.
fn matches_of<'a, S: AsStr>(alloc: Global, words: &'a [S]) -> Result<ArgMatches<'a>, clap::Error>
    ensures rows { IfOk result
        (λ m. subcommand_rows_of m ≡ subcommand_of warmplay (map S.text words.now)) }
    ensures kinds { FailsBy (fault_of warmplay (map S.text words.now)) result }
{
    let command = root_command(alloc)?;
    command.try_get_matches_from(words)
}

fn seed_in(found: &ArgMatches<'_>) -> Option<u64>
    ensures { result ≡ argument_number (2 ^ 64 - 1) (codes "seed") (rows_of (found_of found.now)) }
{
    found.get_one("seed")
}

fn events_in(found: &ArgMatches<'_>) -> Option<u32>
    ensures { result
        ≡ argument_number (2 ^ 32 - 1) (codes "events") (rows_of (found_of found.now)) }
{
    found.get_one("events")
}

fn random_in<'a>(found: &ArgMatches<'a>) -> Option<BorrowedCmd<'a>>
    ensures { option_map command_for result ≡ random_by (rows_of (found_of found.now)) }
{
    let seed = seed_in(found)?;
    let events = events_in(found)?;
    Some(BorrowedCmd::Random(seed, events, found.get_str("setup")))
}

fn threads_in<'a>(found: &ArgMatches<'a>) -> Option<BorrowedCmd<'a>>
    ensures { option_map command_for result ≡ threads_by (rows_of (found_of found.now)) }
{
    let file = found.get_str("file")?;
    Some(BorrowedCmd::Threads(file, found.get_str("setup")))
}

fn asked_in<'a>(matches: &ArgMatches<'a>) -> Option<BorrowedCmd<'a>>
    ensures { option_map command_for result
        ≡ option_and_then command_by (subcommand_rows_of matches.now) }
{
    let (name, found) = matches.subcommand()?;
    let file = found.get_str("file");
    let setup = found.get_str("setup");
    if name == "play" {
        return Some(BorrowedCmd::Play(file, setup));
    }
    if name == "random" {
        return random_in(found);
    }
    if name == "threads" {
        return threads_in(found);
    }
    None
}

fn command_for<'a>(alloc: Global, asked: BorrowedCmd<'a>) -> Result<Cmd, AllocError>
    ensures { IfOk result (λ command. command ≡ command_for asked.entry) }
{
    match asked {
        BorrowedCmd::Play(file, setup) => {
            let file = copied(alloc, file)?;
            let setup = copied(alloc, setup)?;
            Ok(Cmd::Play { file, setup })
        }
        BorrowedCmd::Random(seed, events, setup) => {
            let setup = copied(alloc, setup)?;
            Ok(Cmd::Random {
                seed,
                events,
                setup,
            })
        }
        BorrowedCmd::Threads(file, setup) => {
            let file = PathText::copied_from(alloc, file)?;
            let setup = copied(alloc, setup)?;
            Ok(Cmd::Threads { file, setup })
        }
    }
}

fn copied(alloc: Global, text: Option<&str>) -> Result<Option<PathText>, AllocError>
    ensures { IfOk result (λ path. path ≡ option_map (λ t. t.now) text.entry) }
{
    match text {
        None => Ok(None),
        Some(text) => {
            let path = PathText::copied_from(alloc, text)?;
            Ok(Some(path))
        }
    }
}

/// The fault of a command line with a word that is not UTF-8, which no command takes:
/// [`CmdFault::Refused`], or [`CmdFault::Memory`] if the allocation of its text fails.
pub fn non_utf8_argument(alloc: Global) -> CmdFault
    ensures { IsRefusal ErrorKind.InvalidValue result }
{
    refused(
        alloc,
        ErrorKind::InvalidValue,
        "a word of the command line is not UTF-8",
    )
}

fn refused(alloc: Global, kind: ErrorKind, why: &str) -> CmdFault
    ensures { IsRefusal kind result }
{
    let Ok(mut command) = root_command(alloc) else {
        return CmdFault::Memory;
    };
    match command.error(kind, why) {
        Ok(error) => CmdFault::Refused(error),
        Err(_) => CmdFault::Memory,
    }
}

/// The command that the words request. The first word is the program's own name.
///
/// The command and its values are those that clap's own definition of the matches gives for the
/// words. The error is [`CmdFault::Refused`] if clap refuses them or answers a request for help,
/// or if `random` lacks a number or `threads` a file, and [`CmdFault::Memory`] if an
/// allocation failed, including one of clap (its kind `OutOfMemory`).
pub fn command_of<S: AsStr>(alloc: Global, words: &[S]) -> Result<Cmd, CmdFault>
    ensures { Answers (map S.text words.now) result }
{
    let matches = matches_of(alloc, words)?;
    let Some(asked) = asked_in(&matches) else {
        return Err(refused(
            alloc,
            ErrorKind::ValueValidation,
            "--seed and --events want numbers, and threads wants a FILE",
        ));
    };
    Ok(command_for(alloc, asked)?)
}
