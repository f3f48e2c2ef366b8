//! The lines of a schedule.
ghost use Rattle.std.specs.Prelude.{◌≡◌, ◌∷◌, IfSome, option_and_then};
ghost use Rattle.warm_player.specs.Grammar.{line_of, meaning};
ghost use Rattle.warm_player.specs.Parsing.{line_parsed};
ghost use Rattle.warm_player.specs.Reading.{Reads, PutsBytes, line_fault_code, line_fault_name};

use crate::commands::{ParsedLine, command_named, pin, read_fields, refer, unpin};
use crate::fields::parse_bytes;
use crate::text::{after_two, next_word};
use std::alloc::{AllocError, Global};
use thiserror::Error;
use warm_world::Event;

/// The meaning of a line of a schedule.
#[derive(Debug, Drop)]
pub enum Line {
    /// A line without words, or a comment: it prints nothing and nothing happens.
    Nothing,
    /// An event of the world.
    Act(Event),
}

/// Why a line could not be read.
#[derive(Clone, Copy, Debug, PartialEq, Eq, Error)]
pub enum LineFault {
    /// The allocation for the bytes of a `put` failed: 1. Reading other lines is allocation-free.
    #[error("Memory")]
    Memory,
    /// The line is not of the language: 2.
    #[error("Bad")]
    Bad,
}

impl LineFault {
    /// Its number.
    pub fn code(self) -> u8
        ensures { result ≡ line_fault_code self }
    {
        match self {
            LineFault::Memory => 1,
            LineFault::Bad => 2,
        }
    }

    /// Its name.
    pub fn name(self) -> &'static str
        ensures { result.now ≡ line_fault_name self }
    {
        match self {
            LineFault::Memory => "Memory",
            LineFault::Bad => "Bad",
        }
    }
}

impl From<AllocError> for LineFault {
    ghost use Rattle.std.specs.Prelude.{◌≡◌};
    ghost use Rattle.warm_player.specs.declared.parse.LineFault.TheVariants.{Memory};

    ghost from_gives = { λ _ fault. fault ≡ Memory };

    fn from(_error: AllocError) -> LineFault {
        LineFault::Memory
    }
}

/// The maximum length of a line in bytes, without its line end: a longer one is bad, whatever it
/// begins with.
pub const MAX_LINE: usize = 262144;

// The meaning of a line of any length, read without allocation: `None` if it is bad. The word that
// should spell the bytes of a `put` is not read.
#[tactic(auto, unfolding(crate::specs::Grammar::line_of))]
#[inline(never)]
fn parsed_any(line: &[u8]) -> Option<ParsedLine<'_>>
    ensures { line_of line.now ≡ option_and_then line_parsed result }
{
    let Some((word, fields)) = next_word(line) else {
        return Some(ParsedLine::Nothing);
    };
    if let [b'#', ..] = word {
        return Some(ParsedLine::Nothing);
    }
    read_fields(command_named(word)?, fields)
}

// What follows `ref ` at the head of a line.
#[inline(always)]
fn after_ref(line: &[u8]) -> Option<&[u8]>
    ensures { IfSome result (λ fields. line.now ≡ 114 ∷ 101 ∷ 102 ∷ 32 ∷ fields.now) }
{
    let rest = after_two(line, b'r', b'e')?;
    let fields = after_two(rest, b'f', b' ')?;
    Some(fields)
}

// What follows `pin ` at the head of a line.
#[inline(always)]
fn after_pin(line: &[u8]) -> Option<&[u8]>
    ensures { IfSome result (λ fields. line.now ≡ 112 ∷ 105 ∷ 110 ∷ 32 ∷ fields.now) }
{
    let rest = after_two(line, b'p', b'i')?;
    let fields = after_two(rest, b'n', b' ')?;
    Some(fields)
}

// What follows `unpin ` at the head of a line.
#[inline(always)]
fn after_unpin(line: &[u8]) -> Option<&[u8]>
    ensures { IfSome result (λ fields.
        line.now ≡ 117 ∷ 110 ∷ 112 ∷ 105 ∷ 110 ∷ 32 ∷ fields.now) }
{
    let rest = after_two(line, b'u', b'n')?;
    let fields = after_pin(rest)?;
    Some(fields)
}

// The meaning of a line of any length. The lines that are read most often are known by their first
// bytes. Taken into its callers, which then copy no meaning.
#[tactic(auto, using(crate::proofs::FrequentLineLemmas::ref_read, crate::proofs::FrequentLineLemmas::pin_read, crate::proofs::FrequentLineLemmas::unpin_read))]
#[inline(always)]
fn parsed_soon(line: &[u8]) -> Option<ParsedLine<'_>>
    ensures { line_of line.now ≡ option_and_then line_parsed result }
{
    if let Some(fields) = after_ref(line) {
        return refer(fields);
    }
    if let Some(fields) = after_pin(line) {
        return pin(fields);
    }
    if let Some(fields) = after_unpin(line) {
        return unpin(fields);
    }
    parsed_any(line)
}

// The meaning of a line, read without allocation: `None` if it is bad.
#[tactic(auto, unfolding(crate::specs::Grammar::meaning))]
#[inline(always)]
pub(crate) fn parsed_in(line: &[u8]) -> Option<ParsedLine<'_>>
    ensures { meaning line.now ≡ option_and_then line_parsed result }
{
    if line.len() > MAX_LINE {
        return None;
    }
    parsed_soon(line)
}

/// The meaning of a line, given without its line end.
///
/// Words are separated by one or more spaces (byte 20); every other byte, including a tab, a NUL
/// and the CR of a CRLF line end, is part of a word. Numbers are decimal, with any number of
/// leading zeros. docs/FORMATS.md has each line.
///
/// - `Bad` occurs exactly for a line of more than [`MAX_LINE`] bytes, and for one that has a word,
///   is not a comment and is not of the language.
/// - `Memory` occurs only if the allocation for the bytes of a `put` fails, and only for a `put`
///   of the language. Reading other lines is allocation-free.
pub fn parse_line(alloc: Global, line: &[u8]) -> Result<Line, LineFault>
    ensures { Reads PutsBytes (meaning line.now) result }
{
    match parsed_in(line) {
        Some(ParsedLine::Event(event)) => Ok(Line::Act(event)),
        Some(
            ParsedLine::Put {
                replica,
                slot,
                at,
                word,
            },
        ) => {
            let bytes = parse_bytes(alloc, word)?;
            Ok(Line::Act(Event::Put(replica, slot, at, bytes)))
        }
        Some(ParsedLine::Nothing) => Ok(Line::Nothing),
        None => Err(LineFault::Bad),
    }
}
