//! The fields of a line: each reader takes the first word of the text, and returns its value and
//! what follows it.
ghost use Rattle.std.specs.Prelude.{◌≡◌, ◌<◌, ◌≤◌, ◌+◌, ◌*◌, ◌^◌, ◌∷◌, None, length, IfSome};
ghost use Rattle.std.specs.Prelude.{MatchOption, option_map, is_some};
ghost use Rattle.std.specs.List.{prefix_len};
ghost use Rattle.warm_stamps.specs.declared.TheConstants.{BUCKETS};
ghost use Rattle.warm_player.specs.Text.{words};
ghost use Rattle.warm_player.specs.Fields.{digit_of, hex_digit_of, hex_pairs, bytes_of_hex};
ghost use Rattle.warm_player.specs.Fields.{number_field, replica_field, worker_field};
ghost use Rattle.warm_player.specs.Fields.{bucket_field, count_field, u64_field, page_field};
ghost use Rattle.warm_player.specs.Fields.{after_field, slot_field};
ghost use Rattle.warm_player.specs.TextHeads.{head_number, head_page, head_slot, is_digit};
ghost use Rattle.warm_player.specs.Reading.{Reads, TakesMemory};

use crate::parse::LineFault;
use crate::text::{after_byte, after_word, from_word};
use std::alloc::Global;
use warm_pool::Slot;
use warm_stamps::{BUCKETS, ByteList, PageId};

fn digit(c: u8) -> Option<u8>
    ensures value { result ≡ digit_of c }
    ensures bound { IfSome result (λ d. d < 10) }
{
    match c {
        b'0'..=b'9' => Some(c - b'0'),
        _ => None,
    }
}

// The number with one more digit, if it fits in 64 bits.
fn with_digit(number: u64, digit: u8) -> Option<u64>
    ensures { MatchOption result (2 ^ 64 ≤ 10 * number + digit)
        (λ n. n ≡ 10 * number + digit) }
{
    number.checked_mul(10)?.checked_add(u64::from(digit))
}

// The digit at the head of a text, and what follows it. `None` if the text begins with none.
fn first_digit(text: &[u8]) -> Option<(u8, &[u8])>
    ensures parts { MatchOption result (prefix_len is_digit text.now ≡ 0)
        (λ x. text.now ≡ (48 + x.0) ∷ x.1.now) }
    ensures bound { IfSome result (λ x. x.0 < 10) }
    ensures shorter { IfSome result (λ x. length x.1.now < length text.now) }
{
    let [c, rest @ ..] = text else {
        return None;
    };
    Some((digit(*c)?, rest))
}

// The number that the digits at the head of a text spell, if it is at most `limit`, and what
// follows them: one pass finds the end and the number.
fn leading_number(text: &[u8], limit: u64) -> Option<(u64, &[u8])>
    ensures value { option_map (λ x. (x.0, x.1.now)) result ≡ head_number limit text.now }
    ensures bound { IfSome result (λ x. x.0 ≤ limit) }
{
    let (first, mut rest) = first_digit(text)?;
    let mut number = u64::from(first);
    while let Some((digit, after)) = first_digit(rest) {
        number = with_digit(number, digit)?;
        rest = after;
    }
    if number > limit {
        return None;
    }
    Some((number, rest))
}

// The page at the head of a text, and what follows its word. A second colon is not a digit of the
// number, so it is refused.
fn leading_page(text: &[u8]) -> Option<(PageId, &[u8])>
    ensures { option_map (λ x. (x.0, words x.1.now)) result ≡ head_page text.now }
{
    let (dev, rest) = leading_number(text, u64::from(u16::MAX))?;
    let (no, rest) = leading_number(after_byte(rest, b':')?, u64::MAX)?;
    let rest = after_word(rest)?;
    Some((
        PageId {
            dev: dev as u16,
            no,
        },
        rest,
    ))
}

// The slot at the head of a text, and what follows its word. A second dot is not a digit of the
// generation, so it is refused.
fn leading_slot(text: &[u8]) -> Option<(Slot, &[u8])>
    ensures { option_map (λ x. (x.0, words x.1.now)) result ≡ head_slot text.now }
{
    let (index, rest) = leading_number(text, u64::from(u32::MAX))?;
    let (generation, rest) = leading_number(after_byte(rest, b'.')?, u64::MAX)?;
    let rest = after_word(rest)?;
    Some((
        Slot {
            index: index as u32,
            generation,
        },
        rest,
    ))
}

// ---- bytes, two hexadecimal digits for each

fn hex_digit(c: u8) -> Option<u8>
    ensures value { result ≡ hex_digit_of c }
    ensures bound { IfSome result (λ d. d < 16) }
{
    match c {
        b'0'..=b'9' => Some(c - b'0'),
        b'a'..=b'f' => Some(c - b'a' + 10),
        b'A'..=b'F' => Some(c - b'A' + 10),
        _ => None,
    }
}

// The byte that the first two digits spell, and what follows them. `None` if there is none.
fn first_byte(digits: &[u8]) -> Option<(u8, &[u8])>
    ensures spelled { MatchOption result (0 < length digits.now → hex_pairs digits.now ≡ None)
        (λ x. hex_pairs digits.now ≡ option_map (λ more. x.0 ∷ more) (hex_pairs x.1.now)) }
    ensures shorter { IfSome result (λ x. length x.1.now + 2 ≡ length digits.now) }
{
    let [high, low, rest @ ..] = digits else {
        return None;
    };
    let high = hex_digit(*high)?;
    let low = hex_digit(*low)?;
    Some((16 * high + low, rest))
}

fn spells_bytes(word: &[u8]) -> bool
    ensures { result ≡ is_some (bytes_of_hex word.now) }
{
    if word.is_empty() {
        return false;
    }
    let mut rest = word;
    while let Some((_, after)) = first_byte(rest) {
        rest = after;
    }
    rest.is_empty()
}

// The bytes that a word spells. It allocates only if the word spells bytes.
pub(crate) fn parse_bytes(alloc: Global, word: &[u8]) -> Result<ByteList, LineFault>
    ensures { Reads TakesMemory (bytes_of_hex word.now) result }
{
    if !spells_bytes(word) {
        return Err(LineFault::Bad);
    }
    let mut bytes = Vec::with_capacity(alloc, word.len() / 2)?;
    let mut rest = word;
    while let Some((byte, after)) = first_byte(rest) {
        bytes.push_reserved(byte);
        rest = after;
    }
    Ok(ByteList::of(bytes))
}

// ---- one field, and what follows it

// A number.
#[tactic(auto, using(crate::proofs::FieldLemmas::number_read))]
#[inline(always)]
fn number_in(fields: &[u8], limit: u64) -> Option<(u64, &[u8])>
    ensures value { option_map (λ x. (x.0, words x.1.now)) result
        ≡ number_field limit (words fields.now) }
    ensures bound { IfSome result (λ x. x.0 ≤ limit) }
{
    let (number, rest) = leading_number(from_word(fields), limit)?;
    Some((number, after_word(rest)?))
}

// The same out of line: taken into a reader more than once, it would make each `None` dearer.
#[inline(never)]
fn read_number(fields: &[u8], limit: u64) -> Option<(u64, &[u8])>
    ensures value { option_map (λ x. (x.0, words x.1.now)) result
        ≡ number_field limit (words fields.now) }
    ensures bound { IfSome result (λ x. x.0 ≤ limit) }
{
    number_in(fields, limit)
}

// The digit at the head of a text, before a space, and what follows that space: most numbers of
// replicas and workers have one digit, and are read without a call.
#[inline(always)]
fn one_digit(text: &[u8]) -> Option<(u16, &[u8])>
    ensures parts { IfSome result (λ x. text.now ≡ (48 + x.0) ∷ 32 ∷ x.1.now) }
    ensures bound { IfSome result (λ x. x.0 < 10) }
{
    let [c, b' ', rest @ ..] = text else {
        return None;
    };
    Some((u16::from(digit(*c)?), rest))
}

// A replica's number.
pub(crate) fn read_replica(fields: &[u8]) -> Option<(u16, &[u8])>
    ensures { option_map (λ x. (x.0, words x.1.now)) result ≡ replica_field (words fields.now) }
{
    if let Some((replica, rest)) = one_digit(fields) {
        return Some((replica, rest));
    }
    let (replica, rest) = read_number(fields, u64::from(u16::MAX))?;
    Some((replica as u16, rest))
}

// A worker's number.
pub(crate) fn read_worker(fields: &[u8]) -> Option<(u16, &[u8])>
    ensures { option_map (λ x. (x.0, words x.1.now)) result ≡ worker_field (words fields.now) }
{
    if let Some((worker, rest)) = one_digit(fields) {
        return Some((worker, rest));
    }
    let (worker, rest) = read_number(fields, u64::from(u16::MAX))?;
    Some((worker as u16, rest))
}

// A bucket's number.
pub(crate) fn read_bucket(fields: &[u8]) -> Option<(u8, &[u8])>
    ensures value { option_map (λ x. (x.0, words x.1.now)) result
        ≡ bucket_field (words fields.now) }
    ensures bound { IfSome result (λ x. x.0 < BUCKETS) }
{
    let (bucket, rest) = read_number(fields, BUCKETS as u64 - 1)?;
    Some((bucket as u8, rest))
}

// A number of pages or bytes, or the offset of a byte.
pub(crate) fn read_count(fields: &[u8]) -> Option<(u32, &[u8])>
    ensures { option_map (λ x. (x.0, words x.1.now)) result ≡ count_field (words fields.now) }
{
    let (count, rest) = read_number(fields, u64::from(u32::MAX))?;
    Some((count as u32, rest))
}

// A time, or the number of a message.
pub(crate) fn read_u64(fields: &[u8]) -> Option<(u64, &[u8])>
    ensures { option_map (λ x. (x.0, words x.1.now)) result ≡ u64_field (words fields.now) }
{
    number_in(fields, u64::MAX)
}

#[tactic(auto, using(crate::proofs::FieldLemmas::page_read))]
pub(crate) fn read_page(fields: &[u8]) -> Option<(PageId, &[u8])>
    ensures { option_map (λ x. (x.0, words x.1.now)) result ≡ page_field (words fields.now) }
{
    leading_page(from_word(fields))
}

// A page, or nothing if the line ends before it.
#[tactic(auto, using(crate::proofs::FieldLemmas::after_nothing, crate::proofs::FieldLemmas::after_read), unfolding(crate::specs::Text::words))]
pub(crate) fn read_after(fields: &[u8]) -> Option<(Option<PageId>, &[u8])>
    ensures { option_map (λ x. (x.0, words x.1.now)) result ≡ after_field (words fields.now) }
{
    let text = from_word(fields);
    if text.is_empty() {
        return Some((None, text));
    }
    let (page, rest) = leading_page(text)?;
    Some((Some(page), rest))
}

#[tactic(auto, using(crate::proofs::FieldLemmas::slot_read))]
pub(crate) fn read_slot(fields: &[u8]) -> Option<(Slot, &[u8])>
    ensures { option_map (λ x. (x.0, words x.1.now)) result ≡ slot_field (words fields.now) }
{
    leading_slot(from_word(fields))
}
