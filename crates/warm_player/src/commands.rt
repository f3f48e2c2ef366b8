//! The commands of a schedule: a table of their words, and for each a reader of its fields.
ghost use Rattle.std.specs.Prelude.{◌≡◌, map, option_map, option_and_then};
ghost use Rattle.warm_player.specs.Text.{words};
ghost use Rattle.warm_player.specs.Grammar.{ends_with, refer_of, flush_of, send_of, offer_of};
ghost use Rattle.warm_player.specs.Grammar.{deliver_of, pin_of, unpin_of, put_of, get_of};
ghost use Rattle.warm_player.specs.Grammar.{victim_of, warm_of, warmstep_of, restart_of};
ghost use Rattle.warm_player.specs.Grammar.{horizon_of, show_of, looked_up, commands};
ghost use Rattle.warm_player.specs.Parsing.{reader_of, line_parsed};
ghost use Rattle.warm_player.specs.declared.parse.Line.TheVariants as meant;

use crate::fields::{
    read_after, read_bucket, read_count, read_page, read_replica, read_slot, read_u64, read_worker,
};
use crate::text::next_word;
use warm_pool::Slot;
use warm_stamps::Bucket;
use warm_world::Event;

// A command of the language.
#[derive(Clone, Copy)]
pub(crate) enum Command {
    Refer,
    Flush,
    Send,
    Offer,
    Deliver,
    Pin,
    Unpin,
    Put,
    Get,
    Victim,
    Warm,
    WarmStep,
    Restart,
    Horizon,
    Show,
}

// The first word of each command. A static, since a constant that holds references may be
// constructed again at each use.
static COMMANDS: [(&str, Command); 15] = [
    ("ref", Command::Refer),
    ("flush", Command::Flush),
    ("send", Command::Send),
    ("offer", Command::Offer),
    ("deliver", Command::Deliver),
    ("pin", Command::Pin),
    ("unpin", Command::Unpin),
    ("put", Command::Put),
    ("get", Command::Get),
    ("victim", Command::Victim),
    ("warm", Command::Warm),
    ("warmstep", Command::WarmStep),
    ("restart", Command::Restart),
    ("horizon", Command::Horizon),
    ("show", Command::Show),
];

// The command of the first row with this word.
fn command_in(rows: &[(&str, Command)], word: &[u8]) -> Option<Command>
    ensures { result ≡ looked_up (map (λ row. (row.0.now, row.1)) rows.now) word.now }
{
    for (name, command) in rows {
        if word == name.as_bytes() {
            return Some(*command);
        }
    }
    None
}

// The command that begins with this word.
pub(crate) fn command_named(word: &[u8]) -> Option<Command>
    ensures { option_map reader_of result ≡ looked_up commands word.now }
{
    command_in(&COMMANDS, word)
}

// The meaning of a line, read without allocation: the bytes of a `put` are left as the word that
// should spell them.
#[derive(Drop)]
pub(crate) enum ParsedLine<'a> {
    // The line has no word, or is a comment.
    Nothing,
    Event(Event),
    Put {
        replica: u16,
        slot: Slot,
        at: u32,
        word: &'a [u8],
    },
}

// The meaning of a command with these fields.
pub(crate) fn read_fields(command: Command, fields: &[u8]) -> Option<ParsedLine<'_>>
    ensures { option_and_then line_parsed result
        ≡ option_map meant.Act (reader_of command (words fields.now)) }
{
    match command {
        Command::Refer => refer(fields),
        Command::Flush => flush(fields),
        Command::Send => send(fields),
        Command::Offer => offer(fields),
        Command::Deliver => deliver(fields),
        Command::Pin => pin(fields),
        Command::Unpin => unpin(fields),
        Command::Put => put(fields),
        Command::Get => get(fields),
        Command::Victim => victim(fields),
        Command::Warm => warm(fields),
        Command::WarmStep => warmstep(fields),
        Command::Restart => restart(fields),
        Command::Horizon => horizon(fields),
        Command::Show => show(fields),
    }
}

// The event, if no further word follows. Taken into its callers, which then pass no event.
#[inline(always)]
fn ends_with(rest: &[u8], event: Event) -> Option<ParsedLine<'_>>
    ensures { option_and_then line_parsed result
        ≡ option_map meant.Act (ends_with (words rest.now) event) }
{
    if next_word(rest).is_some() {
        return None;
    }
    Some(ParsedLine::Event(event))
}

// ---- the readers, each of what follows the first word

#[tactic(auto, unfolding(crate::specs::Grammar::refer_of))]
#[inline(never)]
pub(crate) fn refer(fields: &[u8]) -> Option<ParsedLine<'_>>
    ensures { option_and_then line_parsed result
        ≡ option_map meant.Act (refer_of (words fields.now)) }
{
    let (replica, rest) = read_replica(fields)?;
    let (worker, rest) = read_worker(rest)?;
    let (page, rest) = read_page(rest)?;
    let (time, rest) = read_u64(rest)?;
    ends_with(rest, Event::Refer(replica, worker, page, time))
}

#[tactic(auto, unfolding(crate::specs::Grammar::flush_of))]
fn flush(fields: &[u8]) -> Option<ParsedLine<'_>>
    ensures { option_and_then line_parsed result
        ≡ option_map meant.Act (flush_of (words fields.now)) }
{
    let (replica, rest) = read_replica(fields)?;
    let (worker, rest) = read_worker(rest)?;
    ends_with(rest, Event::Flush(replica, worker))
}

#[tactic(auto, unfolding(crate::specs::Grammar::send_of))]
fn send(fields: &[u8]) -> Option<ParsedLine<'_>>
    ensures { option_and_then line_parsed result
        ≡ option_map meant.Act (send_of (words fields.now)) }
{
    let (replica, rest) = read_replica(fields)?;
    let (bucket, rest) = read_bucket(rest)?;
    let bucket = Bucket::new(bucket)?;
    let (after, rest) = read_after(rest)?;
    ends_with(rest, Event::Send(replica, bucket, after))
}

#[tactic(auto, unfolding(crate::specs::Grammar::offer_of))]
fn offer(fields: &[u8]) -> Option<ParsedLine<'_>>
    ensures { option_and_then line_parsed result
        ≡ option_map meant.Act (offer_of (words fields.now)) }
{
    let (replica, rest) = read_replica(fields)?;
    ends_with(rest, Event::Offer(replica))
}

#[tactic(auto, unfolding(crate::specs::Grammar::deliver_of))]
fn deliver(fields: &[u8]) -> Option<ParsedLine<'_>>
    ensures { option_and_then line_parsed result
        ≡ option_map meant.Act (deliver_of (words fields.now)) }
{
    let (replica, rest) = read_replica(fields)?;
    let (message, rest) = read_u64(rest)?;
    ends_with(rest, Event::Deliver(replica, message))
}

#[tactic(auto, unfolding(crate::specs::Grammar::pin_of))]
#[inline(never)]
pub(crate) fn pin(fields: &[u8]) -> Option<ParsedLine<'_>>
    ensures { option_and_then line_parsed result
        ≡ option_map meant.Act (pin_of (words fields.now)) }
{
    let (replica, rest) = read_replica(fields)?;
    let (page, rest) = read_page(rest)?;
    ends_with(rest, Event::Pin(replica, page))
}

#[tactic(auto, unfolding(crate::specs::Grammar::unpin_of))]
#[inline(never)]
pub(crate) fn unpin(fields: &[u8]) -> Option<ParsedLine<'_>>
    ensures { option_and_then line_parsed result
        ≡ option_map meant.Act (unpin_of (words fields.now)) }
{
    let (replica, rest) = read_replica(fields)?;
    let (slot, rest) = read_slot(rest)?;
    ends_with(rest, Event::Unpin(replica, slot))
}

#[tactic(auto, unfolding(crate::specs::Grammar::put_of, crate::specs::Fields::bytes_field))]
fn put(fields: &[u8]) -> Option<ParsedLine<'_>>
    ensures { option_and_then line_parsed result
        ≡ option_map meant.Act (put_of (words fields.now)) }
{
    let (replica, rest) = read_replica(fields)?;
    let (slot, rest) = read_slot(rest)?;
    let (at, rest) = read_count(rest)?;
    let (word, rest) = next_word(rest)?;
    if next_word(rest).is_some() {
        return None;
    }
    Some(ParsedLine::Put {
        replica,
        slot,
        at,
        word,
    })
}

#[tactic(auto, unfolding(crate::specs::Grammar::get_of))]
fn get(fields: &[u8]) -> Option<ParsedLine<'_>>
    ensures { option_and_then line_parsed result
        ≡ option_map meant.Act (get_of (words fields.now)) }
{
    let (replica, rest) = read_replica(fields)?;
    let (slot, rest) = read_slot(rest)?;
    let (at, rest) = read_count(rest)?;
    let (count, rest) = read_count(rest)?;
    ends_with(rest, Event::Get(replica, slot, at, count))
}

#[tactic(auto, unfolding(crate::specs::Grammar::victim_of))]
fn victim(fields: &[u8]) -> Option<ParsedLine<'_>>
    ensures { option_and_then line_parsed result
        ≡ option_map meant.Act (victim_of (words fields.now)) }
{
    let (replica, rest) = read_replica(fields)?;
    ends_with(rest, Event::Victim(replica))
}

#[tactic(auto, unfolding(crate::specs::Grammar::warm_of))]
fn warm(fields: &[u8]) -> Option<ParsedLine<'_>>
    ensures { option_and_then line_parsed result
        ≡ option_map meant.Act (warm_of (words fields.now)) }
{
    let (replica, rest) = read_replica(fields)?;
    let (count, rest) = read_count(rest)?;
    ends_with(rest, Event::Warm(replica, count))
}

#[tactic(auto, unfolding(crate::specs::Grammar::warmstep_of))]
fn warmstep(fields: &[u8]) -> Option<ParsedLine<'_>>
    ensures { option_and_then line_parsed result
        ≡ option_map meant.Act (warmstep_of (words fields.now)) }
{
    let (replica, rest) = read_replica(fields)?;
    ends_with(rest, Event::WarmStep(replica))
}

#[tactic(auto, unfolding(crate::specs::Grammar::restart_of))]
fn restart(fields: &[u8]) -> Option<ParsedLine<'_>>
    ensures { option_and_then line_parsed result
        ≡ option_map meant.Act (restart_of (words fields.now)) }
{
    let (replica, rest) = read_replica(fields)?;
    ends_with(rest, Event::Restart(replica))
}

#[tactic(auto, unfolding(crate::specs::Grammar::horizon_of))]
fn horizon(fields: &[u8]) -> Option<ParsedLine<'_>>
    ensures { option_and_then line_parsed result
        ≡ option_map meant.Act (horizon_of (words fields.now)) }
{
    let (replica, rest) = read_replica(fields)?;
    let (time, rest) = read_u64(rest)?;
    ends_with(rest, Event::Horizon(replica, time))
}

#[tactic(auto, unfolding(crate::specs::Grammar::show_of))]
fn show(fields: &[u8]) -> Option<ParsedLine<'_>>
    ensures { option_and_then line_parsed result
        ≡ option_map meant.Act (show_of (words fields.now)) }
{
    let (replica, rest) = read_replica(fields)?;
    ends_with(rest, Event::Show(replica))
}
