//! Bytes split at a separator, and the ends of words.
ghost use Rattle.std.specs.Prelude.{◌≡◌, ◌<◌, [], ◌∷◌, ◌++◌, None, length, MatchOption, IfSome};
ghost use Rattle.std.specs.Prelude.{option_map};
ghost use Rattle.warm_player.specs.Text.{IsLine, split, words};
ghost use Rattle.warm_player.specs.TextHeads.{behind, words_behind};

use memchr::memchr;

/// The first line of a text, without its end (byte 0A), and what follows that end. `None` if no
/// line ends: the text is then the start of one line, or the last line. Allocation-free.
pub fn first_line(text: &[u8]) -> Option<(&[u8], &[u8])>
    ensures line { MatchOption result (IsLine text.now) (λ x. IsLine x.0.now) }
    ensures parts { IfSome result (λ x. text.now ≡ x.0.now ++ 10 ∷ x.1.now) }
{
    let end = memchr(b'\n', text)?;
    Some((&text[..end], &text[end + 1..]))
}

// The piece before the first separator, and what follows it. `None` if there is no separator.
fn cut(text: &[u8], separator: u8) -> Option<(&[u8], &[u8])>
    ensures pieces { MatchOption result (split separator text.now ≡ text.now ∷ [])
        (λ x. split separator text.now ≡ x.0.now ∷ split separator x.1.now) }
    ensures shorter { IfSome result (λ x. length x.1.now < length text.now) }
{
    for i in 0..text.len() {
        if text[i] == separator {
            return Some((&text[..i], &text[i + 1..]));
        }
    }
    None
}

// The first word of a line, and what follows it. `None` if there is no word.
pub(crate) fn next_word(line: &[u8]) -> Option<(&[u8], &[u8])>
    ensures { MatchOption result (words line.now ≡ [])
        (λ x. words line.now ≡ x.0.now ∷ words x.1.now) }
{
    let mut rest = line;
    while let Some((word, after)) = cut(rest, b' ') {
        if !word.is_empty() {
            return Some((word, after));
        }
        rest = after;
    }
    if rest.is_empty() {
        return None;
    }
    Some((rest, &[]))
}

// The text from its first word on. Words are parted by one or more spaces.
#[tactic(auto, unfolding(crate::specs::Text::words))]
#[inline]
pub(crate) fn from_word(text: &[u8]) -> &[u8]
    ensures same { words result.now ≡ words text.now }
    ensures no_space { behind 32 result.now ≡ None }
{
    match text {
        [b' ', rest @ ..] => after_spaces(rest),
        _ => text,
    }
}

// What follows more spaces. It stands apart since `after_word` has passed the first space of a
// field, so that a field whose word follows at once has no loop here.
#[tactic(auto, unfolding(crate::specs::Text::words))]
#[cold]
#[inline(never)]
fn after_spaces(text: &[u8]) -> &[u8]
    ensures same { words result.now ≡ words text.now }
    ensures no_space { behind 32 result.now ≡ None }
{
    let mut rest = text;
    while let [b' ', after @ ..] = rest {
        rest = after;
    }
    rest
}

// What follows this byte at the head of a text. `None` if the text begins with none.
pub(crate) fn after_byte(text: &[u8], byte: u8) -> Option<&[u8]>
    ensures { option_map (λ rest. rest.now) result ≡ behind byte text.now }
{
    match text {
        [first, rest @ ..] if *first == byte => Some(rest),
        _ => None,
    }
}

// What follows the end of a word. `None` if the word goes on.
#[tactic(auto, unfolding(crate::specs::Text::words))]
pub(crate) fn after_word(text: &[u8]) -> Option<&[u8]>
    ensures { option_map (λ rest. words rest.now) result ≡ words_behind text.now }
{
    match text {
        [] => Some(text),
        [b' ', rest @ ..] => Some(rest),
        _ => None,
    }
}

// What follows two bytes at the head of a text. `None` if it begins with others.
#[inline(always)]
pub(crate) fn after_two(text: &[u8], first: u8, second: u8) -> Option<&[u8]>
    ensures { IfSome result (λ rest. text.now ≡ first ∷ second ∷ rest.now) }
{
    let [one, two, rest @ ..] = text else {
        return None;
    };
    if *one != first || *two != second {
        return None;
    }
    Some(rest)
}
