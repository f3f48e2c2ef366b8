//! Printing the answers of a world. Everything here is allocation-free.
ghost use Rattle.std.specs.Prelude.{◌≡◌, ◌<◌, ◌≤◌, ◌+◌, ◌∷◌, ◌++◌};
ghost use Rattle.std.specs.Prelude.{codes, decimal, drop, flat_map, length};
ghost use Rattle.warm_history.specs.Histories.{entries_of};
ghost use Rattle.warm_player.specs.Answers.{Prints, page_text, stamp_text, hist_text, entry_text};
ghost use Rattle.warm_player.specs.Answers.{end_text};
ghost use Rattle.warm_player.specs.Answers.{shown_text, pages_text};
ghost use Rattle.warm_player.specs.Answers.{hex_text, byte_text, bytes_text};
ghost use Rattle.warm_player.specs.Answers.{page_if_any, refused_text};
ghost use Rattle.warm_player.specs.Answers.{answer_text, bad_line, end_refused};
ghost use Rattle.warm_world.specs.declared.event.Answer.TheVariants.{Pinned};
ghost use Rattle.warm_player.specs.declared.printer.TheConstants.{AT_ONCE, TWO_NUMBERS};

use itoa::write_digits;
use std::io::{self, Write};
use warm_history::{Entries, Entry, History, PageHist};
use warm_pool::Slot;
use warm_stamps::{PageId, Stamp};
use warm_world::{Answer, WorldFault};

// The most bytes of two numbers with a byte between them.
const TWO_NUMBERS: usize = 41;

// Two numbers with a byte between them, put before this end; where they begin. A number's last
// digit is found first, so a text is put together from its end.
#[inline(always)]
fn put_two(line: &mut [u8], end: usize, first: u64, between: u8, last: u64) -> usize
    requires { (TWO_NUMBERS ≤ end) × (end ≤ length line.old) }
    ensures start { (result ≤ end) × (end ≤ result + TWO_NUMBERS) }
    ensures written { drop result line.new
        ≡ decimal first ++ between ∷ (decimal last ++ drop end line.old) }
    ensures same { length line.new ≡ length line.old }
{
    let middle = write_digits(last, line, end) - 1;
    line[middle] = between;
    write_digits(first, line, middle)
}

// Two numbers with a byte between them, by one write.
#[inline(never)]
fn print_two<W: Write>(writer: &mut W, first: u64, between: u8, last: u64) -> io::Result<()>
    ensures { Prints result (W.contents writer.old) (W.contents writer.new)
        (decimal first ++ between ∷ decimal last) }
{
    let mut text = [between; TWO_NUMBERS];
    let start = put_two(&mut text, TWO_NUMBERS, first, between, last);
    writer.write_all(&text[start..])
}

// DEVICE:NUMBER
fn print_page<W: Write>(writer: &mut W, page: PageId) -> io::Result<()>
    ensures { Prints result (W.contents writer.old) (W.contents writer.new) (page_text page) }
{
    print_two(writer, u64::from(page.dev), b':', page.no)
}

// A word of six bytes, put before this end; where it begins.
#[inline(always)]
fn put_word(line: &mut [u8], end: usize, word: &[u8; 6]) -> usize
    requires { (6 ≤ end) × (end ≤ length line.old) }
    ensures start { result + 6 ≡ end }
    ensures written { drop result line.new ≡ word.now ++ drop end line.old }
    ensures same { length line.new ≡ length line.old }
{
    let start = end - 6;
    line[start..end].copy_from_slice(word);
    start
}

// TIME@REPLICA behind a word, put before this end; where the word begins.
#[inline(always)]
fn put_stamp(line: &mut [u8], end: usize, word: &[u8; 6], stamp: Stamp) -> usize
    requires { (47 ≤ end) × (end ≤ length line.old) }
    ensures start { (result ≤ end) × (end ≤ result + 47) }
    ensures written { drop result line.new ≡ word.now ++ (stamp_text stamp ++ drop end line.old) }
    ensures same { length line.new ≡ length line.old }
{
    let start = put_two(line, end, stamp.time, b'@', u64::from(stamp.replica.get()));
    put_word(line, start, word)
}

// The stamps of a page, put before this end; where they begin.
#[inline(always)]
fn put_hist(line: &mut [u8], end: usize, hist: PageHist) -> usize
    requires { (94 ≤ end) × (end ≤ length line.old) }
    ensures start { (result ≤ end) × (end ≤ result + 94) }
    ensures written { drop result line.new ≡ hist_text hist ++ drop end line.old }
    ensures same { length line.new ≡ length line.old }
{
    match hist {
        PageHist::Once(last) => put_stamp(line, end, b" last ", last),
        PageHist::Twice(two) => {
            let last = two.last();
            let prev = two.prev();
            let start = put_stamp(line, end, b" prev ", prev);
            put_stamp(line, start, b" last ", last)
        }
    }
}

// The room for the line of a page with its latest stamps: three times two numbers, two words, and
// the line's end.
const ENTRY_LINE: usize = 136;

// The line of a page with its latest stamps, by one write.
fn print_entry<W: Write>(writer: &mut W, entry: Entry) -> io::Result<()>
    ensures { Prints result (W.contents writer.old) (W.contents writer.new) (entry_text entry) }
{
    let Entry { page, hist } = entry;
    let mut row = [b'\n'; ENTRY_LINE];
    let end = put_hist(&mut row, ENTRY_LINE - 1, hist);
    let start = put_two(&mut row, end, u64::from(page.dev), b':', page.no);
    writer.write_all(&row[start..])
}

// The lines of entries.
fn print_entries<W: Write>(writer: &mut W, entries: Entries<'_>) -> io::Result<()>
    ensures { Prints result (W.contents writer.old) (W.contents writer.new)
        (flat_map entry_text entries.entry) }
{
    for entry in entries {
        print_entry(writer, entry)?;
    }
    Ok(())
}

// The line after the pages, with their number.
fn print_end<W: Write>(writer: &mut W, count: usize) -> io::Result<()>
    ensures { Prints result (W.contents writer.old) (W.contents writer.new) (end_text count) }
{
    writeln!(writer, "end {count}")
}

/// Prints a history as `show` does: a line for each page, in page order, and then their number.
/// After an error it is unspecified how much of it was written.
pub fn print_history<W: Write>(writer: &mut W, history: &History) -> io::Result<()>
    ensures { Prints result (W.contents writer.old) (W.contents writer.new)
        (shown_text (entries_of history.now)) }
{
    print_entries(writer, history.iter())?;
    print_end(writer, history.len())
}

// Each page of a list, after a space.
fn print_pages<W: Write>(writer: &mut W, pages: &[PageId]) -> io::Result<()>
    ensures { Prints result (W.contents writer.old) (W.contents writer.new) (pages_text pages.now) }
{
    for page in pages {
        writer.write_all(b" ")?;
        print_page(writer, *page)?;
    }
    Ok(())
}

// The hexadecimal digit of a number below 16.
fn hex_digit(digit: u8) -> u8
    requires { digit < 16 }
    ensures { result ≡ hex_text digit }
{
    if digit < 10 {
        return b'0' + digit;
    }
    b'a' - 10 + digit
}

// The number of bytes that are printed by one write.
const AT_ONCE: usize = 64;

// The number of their digits.
const DIGITS: usize = 2 * AT_ONCE;

// Bytes as hexadecimal digits, by one write.
fn print_digits<W: Write>(writer: &mut W, bytes: &[u8]) -> io::Result<()>
    requires { length bytes.now ≤ AT_ONCE }
    ensures { Prints result (W.contents writer.old) (W.contents writer.new)
        (flat_map byte_text bytes.now) }
{
    let mut digits = [0; DIGITS];
    for i in 0..bytes.len() {
        digits[2 * i] = hex_digit(bytes[i] / 16);
        digits[2 * i + 1] = hex_digit(bytes[i] % 16);
    }
    writer.write_all(&digits[..2 * bytes.len()])
}

// Bytes after a space, or nothing if there is none.
fn print_bytes<W: Write>(writer: &mut W, bytes: &[u8]) -> io::Result<()>
    ensures { Prints result (W.contents writer.old) (W.contents writer.new) (bytes_text bytes.now) }
{
    if bytes.is_empty() {
        return Ok(());
    }
    writer.write_all(b" ")?;
    for chunk in bytes.chunks(AT_ONCE) {
        print_digits(writer, chunk)?;
    }
    Ok(())
}

// A page after a word, or `none`.
fn print_page_if_any<W: Write>(writer: &mut W, word: &str, page: Option<PageId>) -> io::Result<()>
    ensures { Prints result (W.contents writer.old) (W.contents writer.new)
        (page_if_any word.now page) }
{
    let Some(page) = page else {
        return writer.write_all(b"none\n");
    };
    writer.write_all(word.as_bytes())?;
    print_page(writer, page)?;
    writer.write_all(b"\n")
}

pub(crate) fn print_refusal<W: Write>(writer: &mut W, fault: WorldFault) -> io::Result<()>
    ensures { Prints result (W.contents writer.old) (W.contents writer.new) (refused_text fault) }
{
    let code = fault.code();
    let name = fault.name();
    writeln!(writer, "refused {code} {name}")
}

/// Prints the text of one answer, whole lines. After an error it is unspecified how much of it was
/// written.
pub fn print_answer<W: Write>(writer: &mut W, answer: &Answer) -> io::Result<()>
    ensures { Prints result (W.contents writer.old) (W.contents writer.new)
        (answer_text answer.now) }
{
    if let Answer::Done = answer {
        return writer.write_all(b"ok\n");
    }
    if let Answer::Pinned(slot) = answer {
        return print_pinned(writer, *slot);
    }
    print_any(writer, answer)
}

// The word `slot` and a space, put before this end; where they begin.
#[inline(always)]
fn put_slot_word(line: &mut [u8], end: usize) -> usize
    requires { (5 ≤ end) × (end ≤ length line.old) }
    ensures start { result + 5 ≡ end }
    ensures written { drop result line.new ≡ codes "slot " ++ drop end line.old }
    ensures same { length line.new ≡ length line.old }
{
    let start = end - 5;
    line[start + 4] = b' ';
    line[start + 3] = b't';
    line[start + 2] = b'o';
    line[start + 1] = b'l';
    line[start] = b's';
    start
}

// The most bytes of the line of a slot: the word, ten digits of a frame, a dot, 20 digits of a
// generation and the line's end.
const SLOT_LINE: usize = 37;

// The line of a slot whose page was pinned, FRAME.GENERATION after the word, by one write. It is
// put together from its end, since a number's last digit is found first.
#[inline(never)]
fn print_pinned<W: Write>(writer: &mut W, slot: Slot) -> io::Result<()>
    ensures { Prints result (W.contents writer.old) (W.contents writer.new)
        (answer_text (Pinned slot)) }
{
    let Slot { index, generation } = slot;
    let mut line = [b'\n'; SLOT_LINE];
    let dot = write_digits(generation, &mut line, SLOT_LINE - 1) - 1;
    line[dot] = b'.';
    let number = write_digits(u64::from(index), &mut line, dot);
    let start = put_slot_word(&mut line, number);
    writer.write_all(&line[start..])
}

// The text of any answer. It and the line of a slot are out of line, so that an `ok` clears nothing
// of what they hold.
#[inline(never)]
fn print_any<W: Write>(writer: &mut W, answer: &Answer) -> io::Result<()>
    ensures { Prints result (W.contents writer.old) (W.contents writer.new)
        (answer_text answer.now) }
{
    match answer {
        Answer::Done => writer.write_all(b"ok\n"),
        Answer::Shown(shown) => print_history(writer, shown.as_history()),
        Answer::FrameNo(number) => writeln!(writer, "frame {number}"),
        Answer::Took { count, first } => {
            if *count == 0 {
                return writer.write_all(b"took 0\n");
            }
            writeln!(writer, "took {count} from {first}")
        }
        Answer::Pinned(slot) => print_pinned(writer, *slot),
        Answer::Bytes(bytes) => {
            writer.write_all(b"bytes")?;
            print_bytes(writer, bytes.as_slice())?;
            writer.write_all(b"\n")
        }
        Answer::Page(page) => print_page_if_any(writer, "page ", *page),
        Answer::Pages(pages) => {
            writer.write_all(b"pages")?;
            print_pages(writer, pages.as_slice())?;
            writer.write_all(b"\n")
        }
        Answer::Loaded(page) => print_page_if_any(writer, "loaded ", *page),
        Answer::Kept(horizon) => writeln!(writer, "horizon {horizon}"),
        Answer::Refused(fault) => print_refusal(writer, *fault),
    }
}

/// Prints that the line of this number is bad. After an error it is unspecified how much of it was
/// written.
pub fn print_bad_line<W: Write>(writer: &mut W, number: u64) -> io::Result<()>
    ensures { Prints result (W.contents writer.old) (W.contents writer.new) (bad_line number) }
{
    writeln!(writer, "bad line {number}")
}

/// Prints the last line of a play if writing back to the devices failed. After an error it is
/// unspecified how much of it was written.
pub fn print_end_refused<W: Write>(writer: &mut W) -> io::Result<()>
    ensures { Prints result (W.contents writer.old) (W.contents writer.new) end_refused }
{
    writer.write_all(b"end refused 12 Fault\n")
}
