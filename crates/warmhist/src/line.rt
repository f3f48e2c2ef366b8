//! The words of a line of text.

use warm_stamps::{PageId, ReplicaId, Stamp};

/// The first word of a line, and what follows it. The word is empty if there is none.
pub fn next_word(line: &[u8]) -> (&[u8], &[u8]) {
    for i in 0..line.len() {
        if line[i] != b' ' {
            return word_before_space(&line[i..]);
        }
    }
    (&[], &[])
}

// What comes before the first space, and what is left.
fn word_before_space(line: &[u8]) -> (&[u8], &[u8]) {
    for i in 0..line.len() {
        if line[i] == b' ' {
            return (&line[..i], &line[i..]);
        }
    }
    (line, &[])
}

// The two parts of a word that a separator joins. A second separator is in the second part, of
// which it makes no number.
fn parts_at(word: &[u8], separator: u8) -> Option<(&[u8], &[u8])> {
    for i in 0..word.len() {
        if word[i] == separator {
            return Some((&word[..i], &word[i + 1..]));
        }
    }
    None
}

fn digit_of(byte: u8) -> Option<u64> {
    match byte {
        b'0'..=b'9' => Some(u64::from(byte - b'0')),
        _ => None,
    }
}

/// The number that a word spells: one or more digits, and at most 2^64 - 1.
pub fn number_of(word: &[u8]) -> Option<u64> {
    if word.is_empty() {
        return None;
    }
    let mut number = 0u64;
    for byte in word {
        number = number.checked_mul(10)?.checked_add(digit_of(*byte)?)?;
    }
    Some(number)
}

/// The page that a word spells, as `DEVICE:NUMBER`.
pub fn page_of(word: &[u8]) -> Option<PageId> {
    let (dev, no) = parts_at(word, b':')?;
    let dev = u16::try_from(number_of(dev)?).ok()?;
    let no = number_of(no)?;
    Some(PageId { dev, no })
}

/// The stamp that a word spells, as `TIME@REPLICA`.
pub fn stamp_of(word: &[u8]) -> Option<Stamp> {
    let (time, replica) = parts_at(word, b'@')?;
    let time = number_of(time)?;
    let replica = u16::try_from(number_of(replica)?).ok()?;
    let replica = ReplicaId::new(replica).ok()?;
    Some(Stamp { time, replica })
}
