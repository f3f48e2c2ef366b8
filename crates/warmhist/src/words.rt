//! The command line.

use clap::builder::ValueParser;
use clap::{Arg, ArgAction, ArgMatches, Command};
use std::alloc::{AllocError, Global};
use std::convert::AsStr;
use warm_stamps::{MAX_REPLICAS, ReplicaId};

/// The name of standard input as a FILE, and of standard output as OUT.
pub const DASH: &str = "-";

// What `--version` prints behind the name. The number is the first two of WARM_VERSION in
// include/warm.h, and stands here once; CHANGELOG's table has the formats of each version.
const VERSION: &str = "2.0
reads frames L2G2 and L2G1
writes frames L2G2";

/// What the words ask for.
#[derive(Drop)]
pub enum HistCommand<'a> {
    Show(&'a str),
    Hot(&'a str, usize),
    Check(&'a str, Lines),
    Diff(&'a str, &'a str, Lines),
    Join(Joining<'a>),
    Text(&'a str),
    Make(Making<'a>),
}

/// Whether the lines are printed, or the exit status says all.
#[derive(Clone, Copy, PartialEq)]
pub enum Lines {
    Printed,
    Quiet,
}

/// Where a dump goes, and which replica its frames name as their sender.
#[derive(Drop)]
pub struct Output<'a> {
    pub out: &'a str,
    pub sender: ReplicaId,
}

/// Which dumps are joined, and before which time stamps are left out.
#[derive(Drop)]
pub struct Joining<'a> {
    pub files: Vec<&'a str>,
    pub since: Option<u64>,
    pub output: Output<'a>,
}

/// Of which text a dump is made.
#[derive(Drop)]
pub struct Making<'a> {
    pub text: &'a str,
    pub output: Output<'a>,
}

const EXAMPLES: &str = "Examples:
  warmhist check standby.dump
  warmhist hot --count 100 standby.dump
  warmhist diff primary.dump standby.dump
  warmhist join monday.dump tuesday.dump -o week.dump
  ssh standby cat standby.dump | warmhist join - local.dump -o local.dump
  warmhist text standby.dump | grep -v '^3:' > without-device-3.txt

FILE is a dump of a history; - is standard input. OUT is replaced whole or not at all; \
- is standard output.
Exit status: 0 done, and no difference; 1 diff found a difference; 2 trouble: the command line \
is refused, a file is no dump or cannot be read or written, or memory runs out.";

fn file_argument<'a>(alloc: Global, name: &'a str, help: &'a str) -> Arg<'a> {
    Arg::new(alloc, name)
        .value_name("FILE")
        .help(help)
        .required(true)
}

fn one_file<'a>(alloc: Global, name: &'a str, about: &'a str) -> Result<Command<'a>, AllocError> {
    let command = Command::new(alloc, name).about(about);
    command.arg(file_argument(alloc, "file", "The dump; - is standard input"))
}

fn quiet_argument<'a>(alloc: Global) -> Arg<'a> {
    Arg::new(alloc, "quiet")
        .help("Print no lines: the exit status says it")
        .short('q')
        .long("quiet")
        .action(ArgAction::SetTrue)
}

fn show_command<'a>(alloc: Global) -> Result<Command<'a>, AllocError> {
    let command = one_file(
        alloc,
        "show",
        "Print each page with its latest stamps, in page order",
    )?;
    Ok(command.after_help("Example: warmhist show standby.dump | less"))
}

fn hot_command<'a>(alloc: Global) -> Result<Command<'a>, AllocError> {
    let command = one_file(
        alloc,
        "hot",
        "Print the pages to load first, the hottest first",
    )?;
    let count = Arg::new(alloc, "count")
        .value_name("N")
        .help("How many pages at most; all where it is left out")
        .short('n')
        .long("count")
        .value_parser(ValueParser::unsigned(0, u64::MAX));
    command
        .after_help("Example: warmhist hot --count 100 standby.dump")
        .arg(count)
}

fn check_command<'a>(alloc: Global) -> Result<Command<'a>, AllocError> {
    let command = one_file(
        alloc,
        "check",
        "Read a dump to its end, and say what it holds",
    )?;
    command
        .after_help(
            "Example: warmhist check --quiet standby.dump \
             && warmhist join standby.dump -o kept.dump",
        )
        .arg(quiet_argument(alloc))
}

fn diff_command<'a>(alloc: Global) -> Result<Command<'a>, AllocError> {
    Command::new(alloc, "diff")
        .about("Print what each dump knows that the other does not, by page")
        .after_help("Example: warmhist diff --quiet primary.dump standby.dump || echo they differ")
        .arg(file_argument(alloc, "first", "Its lines begin with <"))?
        .arg(file_argument(alloc, "second", "Its lines begin with >"))?
        .arg(quiet_argument(alloc))
}

fn out_argument<'a>(alloc: Global) -> Arg<'a> {
    Arg::new(alloc, "out")
        .value_name("OUT")
        .help("Where the dump goes, which may be a file that is read; - is standard output")
        .short('o')
        .long("out")
        .required(true)
}

fn sender_argument<'a>(alloc: Global) -> Arg<'a> {
    Arg::new(alloc, "sender")
        .value_name("REPLICA")
        .help("The replica that the frames of OUT name as their sender")
        .long("sender")
        .default_value("1")
        .value_parser(ValueParser::unsigned(1, MAX_REPLICAS as u64))
}

fn since_argument<'a>(alloc: Global) -> Arg<'a> {
    Arg::new(alloc, "since")
        .value_name("TIME")
        .help("Leave out the stamps before this time: the horizon becomes TIME where that is later")
        .long("since")
        .value_parser(ValueParser::unsigned(0, u64::MAX))
}

fn join_command<'a>(alloc: Global) -> Result<Command<'a>, AllocError> {
    let files = file_argument(alloc, "files", "The dumps; - is standard input")
        .action(ArgAction::Append)
        .num_args(1..);
    Command::new(alloc, "join")
        .about("Write the dump of all that these dumps know")
        .after_help(
            "Example: warmhist join --since 1700000000 monday.dump tuesday.dump -o week.dump",
        )
        .arg(files)?
        .arg(out_argument(alloc))?
        .arg(since_argument(alloc))?
        .arg(sender_argument(alloc))
}

fn text_command<'a>(alloc: Global) -> Result<Command<'a>, AllocError> {
    let command = one_file(
        alloc,
        "text",
        "Print a dump as text, of which make makes a dump again",
    )?;
    Ok(command.after_help("Example: warmhist text standby.dump > standby.txt"))
}

const MAKE_EXAMPLE: &str = "Example: warmhist make standby.txt -o standby.dump

The lines of a text: horizon TIME, which may be left out; for each page in any order \
DEVICE:NUMBER last TIME@REPLICA, where two stamps are known with prev TIME@REPLICA behind it; \
and at last end COUNT. Blank lines and those that begin with # count for nothing.";

fn make_command<'a>(alloc: Global) -> Result<Command<'a>, AllocError> {
    let text = Arg::new(alloc, "text")
        .value_name("TEXT")
        .help("The text, as the command text prints it; - is standard input")
        .required(true);
    Command::new(alloc, "make")
        .about("Write the dump that a text says")
        .after_help(MAKE_EXAMPLE)
        .arg(text)?
        .arg(out_argument(alloc))?
        .arg(sender_argument(alloc))
}

fn root_command<'a>(alloc: Global) -> Result<Command<'a>, AllocError> {
    Command::new(alloc, "warmhist")
        .version(VERSION)
        .about("Inspect, compare, join and make dumps of LRU-2 histories")
        .after_help(EXAMPLES)
        .subcommand_required(true)
        .subcommand(show_command(alloc)?)?
        .subcommand(hot_command(alloc)?)?
        .subcommand(check_command(alloc)?)?
        .subcommand(diff_command(alloc)?)?
        .subcommand(join_command(alloc)?)?
        .subcommand(text_command(alloc)?)?
        .subcommand(make_command(alloc)?)
}

/// The matches of the words, as clap finds them.
pub fn matches_of<'a, S: AsStr>(
    alloc: Global,
    words: &'a [S],
) -> Result<ArgMatches<'a>, clap::Error> {
    let command = root_command(alloc)?;
    command.try_get_matches_from(words)
}

fn count_in(found: &ArgMatches<'_>) -> usize {
    let count: Option<u64> = found.get_one("count");
    match count {
        Some(count) => count as usize,
        None => usize::MAX,
    }
}

fn sender_in(found: &ArgMatches<'_>) -> Option<ReplicaId> {
    let number: u16 = found.get_one("sender")?;
    ReplicaId::new(number).ok()
}

fn lines_in(found: &ArgMatches<'_>) -> Lines {
    if found.get_flag("quiet") {
        Lines::Quiet
    } else {
        Lines::Printed
    }
}

fn output_in<'a>(found: &ArgMatches<'a>) -> Option<Output<'a>> {
    let out = found.get_str("out")?;
    let sender = sender_in(found)?;
    Some(Output { out, sender })
}

fn joining_in<'a>(
    alloc: Global,
    found: &ArgMatches<'a>,
) -> Result<Option<HistCommand<'a>>, AllocError> {
    let Some(output) = output_in(found) else {
        return Ok(None);
    };
    let Some(files) = found.get_strs("files") else {
        return Ok(None);
    };
    let files = Vec::from_slice(alloc, files)?;
    let since = found.get_one("since");
    Ok(Some(HistCommand::Join(Joining {
        files,
        since,
        output,
    })))
}

fn making_in<'a>(found: &ArgMatches<'a>) -> Option<HistCommand<'a>> {
    let text = found.get_str("text")?;
    let Some(output) = output_in(found) else {
        return None;
    };
    Some(HistCommand::Make(Making { text, output }))
}

fn pair_in<'a>(found: &ArgMatches<'a>) -> Option<HistCommand<'a>> {
    let first = found.get_str("first")?;
    let second = found.get_str("second")?;
    Some(HistCommand::Diff(first, second, lines_in(found)))
}

// What is asked for of one dump.
fn file_in<'a>(name: &str, found: &ArgMatches<'a>) -> Option<HistCommand<'a>> {
    let file = found.get_str("file")?;
    if name == "hot" {
        return Some(HistCommand::Hot(file, count_in(found)));
    }
    if name == "check" {
        return Some(HistCommand::Check(file, lines_in(found)));
    }
    if name == "text" {
        return Some(HistCommand::Text(file));
    }
    Some(HistCommand::Show(file))
}

/// What the matches ask for. `None` does not come of matches of these commands.
pub fn asked_in<'a>(
    alloc: Global,
    matches: &ArgMatches<'a>,
) -> Result<Option<HistCommand<'a>>, AllocError> {
    let Some((name, found)) = matches.subcommand() else {
        return Ok(None);
    };
    if name == "join" {
        return joining_in(alloc, found);
    }
    if name == "diff" {
        return Ok(pair_in(found));
    }
    if name == "make" {
        return Ok(making_in(found));
    }
    Ok(file_in(name, found))
}

/// Whether standard input would be read twice.
pub fn reads_twice(asked: &HistCommand<'_>) -> bool {
    match asked {
        HistCommand::Diff(first, second, _) => *first == DASH && *second == DASH,
        HistCommand::Join(joining) => {
            let mut seen = false;
            for file in joining.files.as_slice() {
                if *file == DASH {
                    if seen {
                        return true;
                    }
                    seen = true;
                }
            }
            false
        }
        _ => false,
    }
}
