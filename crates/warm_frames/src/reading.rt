//! Reading frames, field by field. Each reader gives what the function of this name in
//! `specs/Reading.antt` gives.
ghost use Rattle.std.specs.Prelude.{◌≡◌, ◌≤◌, [], Err, IfOk, IfErr, vec_capacity};
ghost use Rattle.std.specs.Int.{w16, w32, w64};
ghost use Rattle.warm_history.specs.Carried.{comes_after};
ghost use Rattle.warm_frames.specs.Reading.{IsReading, number_at, byte_at, kind_of, may_have};
ghost use Rattle.warm_frames.specs.Reading.{horizon_at, start_at, length_at, body_at, front_at};
ghost use Rattle.warm_frames.specs.Reading.{stamp_in, two_in, hist_at, read_page, entry_at};
ghost use Rattle.warm_frames.specs.Reading.{entry_with, entries_from, count_at, all_entries};
ghost use Rattle.warm_frames.specs.Reading.{read_entries, read_digests, read_frame, reserved_by};
ghost use Rattle.warm_frames.specs.Reading.{entries_reserved, GivesReading};
ghost use Rattle.warm_frames.specs.Sizes.{frame_size};

use crate::digests::DigestTable;
use crate::entries::EntryList;
use crate::fault::FrameFault;
use crate::format::{Format, entry_size, format_of, header_size};
use crate::layout::{
    COUNT_SIZE, DIGEST_KIND, DIGEST_SIZE, DIGESTS, ENTRIES_KIND, MAX_ENTRIES, NARROW_PAGE_ID_SIZE,
    ONCE_TAG, PAGE_ID_SIZE, REQUEST_SIZE, STAMP_SIZE, TABLE_SIZE, TWICE_TAG, WANT_KIND,
};
use crate::message::Message;
use std::alloc::Global;
use warm_history::{Entry, PageHist, Two};
use warm_stamps::{BucketSet, PageId, ReplicaId, Stamp, page_from, page_from_narrow, stamp_from};

// The kinds of frames, numbered from 1.
#[derive(Clone, Copy)]
enum Kind {
    Entries,
    Digest,
    Want,
}

fn u16_at(bytes: &[u8], short: FrameFault) -> Result<(u16, &[u8]), FrameFault>
    ensures { IsReading (λ x. (x.0, x.1.now)) result (number_at w16 short bytes.now) }
{
    match bytes.split_first_chunk::<2>() {
        Some((front, rest)) => Ok((u16::from_be_bytes(*front), rest)),
        None => Err(short),
    }
}

fn u32_at(bytes: &[u8], short: FrameFault) -> Result<(u32, &[u8]), FrameFault>
    ensures { IsReading (λ x. (x.0, x.1.now)) result (number_at w32 short bytes.now) }
{
    match bytes.split_first_chunk::<4>() {
        Some((front, rest)) => Ok((u32::from_be_bytes(*front), rest)),
        None => Err(short),
    }
}

fn u64_at(bytes: &[u8], short: FrameFault) -> Result<(u64, &[u8]), FrameFault>
    ensures { IsReading (λ x. (x.0, x.1.now)) result (number_at w64 short bytes.now) }
{
    match bytes.split_first_chunk::<8>() {
        Some((front, rest)) => Ok((u64::from_be_bytes(*front), rest)),
        None => Err(short),
    }
}

fn front_at<const N: usize>(bytes: &[u8]) -> Result<(&[u8; N], &[u8]), FrameFault>
    ensures { IsReading (λ x. (x.0.now, x.1.now)) result
        (front_at N FrameFault.BadLength bytes.now) }
{
    match bytes.split_first_chunk::<N>() {
        Some((front, rest)) => Ok((front, rest)),
        None => Err(FrameFault::BadLength),
    }
}

fn u8_at(bytes: &[u8], short: FrameFault) -> Result<(u8, &[u8]), FrameFault>
    ensures { IsReading (λ x. (x.0, x.1.now)) result (byte_at short bytes.now) }
{
    match bytes.split_first() {
        Some((byte, rest)) => Ok((*byte, rest)),
        None => Err(short),
    }
}

fn kind_of(number: u8) -> Result<Kind, FrameFault>
    ensures { result ≡ kind_of number }
{
    match number {
        ENTRIES_KIND => Ok(Kind::Entries),
        DIGEST_KIND => Ok(Kind::Digest),
        WANT_KIND => Ok(Kind::Want),
        _ => Err(FrameFault::BadKind),
    }
}

fn may_have(format: Format, kind: Kind, len: usize) -> bool
    ensures { result ≡ may_have format kind len }
{
    match kind {
        Kind::Entries => {
            COUNT_SIZE <= len && len <= COUNT_SIZE + entry_size(format) * MAX_ENTRIES
        }
        Kind::Digest => len == TABLE_SIZE,
        Kind::Want => len == REQUEST_SIZE,
    }
}

// The horizon, if the format has one.
fn horizon_at(format: Format, bytes: &[u8]) -> Result<(u64, &[u8]), FrameFault>
    ensures { IsReading (λ x. (x.0, x.1.now)) result (horizon_at format bytes.now) }
{
    match format {
        Format::Narrow => Ok((0, bytes)),
        Format::Wide => u64_at(bytes, FrameFault::Truncated),
    }
}

// The header as far as the horizon.
#[tactic(auto, unfolding(crate::specs::Reading::start_at))]
fn start_at(bytes: &[u8]) -> Result<(Format, Kind, ReplicaId, u64, &[u8]), FrameFault>
    ensures { IsReading
        (λ x. (record { format = x.0; kind = x.1; sender = x.2; horizon = x.3 }, x.4.now))
        result (start_at bytes.now) }
{
    let (letters, rest) = u32_at(bytes, FrameFault::Truncated)?;
    let format = format_of(letters)?;
    let (number, rest) = u8_at(rest, FrameFault::Truncated)?;
    let kind = kind_of(number)?;
    let (sender, rest) = u16_at(rest, FrameFault::Truncated)?;
    let Ok(sender) = ReplicaId::new(sender) else {
        return Err(FrameFault::BadSender);
    };
    let (horizon, rest) = horizon_at(format, rest)?;
    Ok((format, kind, sender, horizon, rest))
}

// The length, if it is valid for the kind, and what follows.
#[tactic(auto, unfolding(crate::specs::Reading::length_at))]
fn length_at(format: Format, kind: Kind, bytes: &[u8]) -> Result<(u32, &[u8]), FrameFault>
    ensures { IsReading (λ x. (x.0, x.1.now)) result (length_at format kind bytes.now) }
{
    let (len, rest) = u32_at(bytes, FrameFault::Truncated)?;
    if !may_have(format, kind, len as usize) {
        return Err(FrameFault::BadLength);
    }
    Ok((len, rest))
}

// The length and the body.
#[tactic(auto, unfolding(crate::specs::Reading::body_at))]
fn body_at(format: Format, kind: Kind, bytes: &[u8]) -> Result<&[u8], FrameFault>
    ensures { IsReading (λ body. body.now) result (body_at format kind bytes.now) }
{
    let (len, body) = length_at(format, kind, bytes)?;
    let len = len as usize;
    if body.len() < len {
        return Err(FrameFault::Truncated);
    }
    if len < body.len() {
        return Err(FrameFault::BadLength);
    }
    Ok(body)
}

/// The size of the frame that begins with these bytes, or `Truncated` if its header is incomplete,
/// or the first fault of its header.
#[tactic(auto, unfolding(crate::specs::Sizes::frame_size))]
pub(crate) fn frame_size(bytes: &[u8]) -> Result<usize, FrameFault>
    ensures { result ≡ frame_size bytes.now }
{
    // Not `?`: the borrow checker has no rule for it if a tuple holds a `ReplicaId` and a
    // reference.
    let (format, kind, _, _, rest) = match start_at(bytes) {
        Ok(start) => start,
        Err(fault) => return Err(fault),
    };
    let (len, _) = length_at(format, kind, rest)?;
    Ok(header_size(format) + len as usize)
}

fn stamp_in(bytes: &[u8; STAMP_SIZE]) -> Result<Stamp, FrameFault>
    ensures { result ≡ stamp_in bytes.now }
{
    match stamp_from(bytes) {
        Ok(stamp) => Ok(stamp),
        Err(_) => Err(FrameFault::BadStamp),
    }
}

#[tactic(auto, unfolding(crate::specs::Reading::two_in))]
fn two_in(later: &[u8; STAMP_SIZE], earlier: &[u8; STAMP_SIZE]) -> Result<PageHist, FrameFault>
    ensures { result ≡ two_in later.now earlier.now }
{
    let last = stamp_in(later)?;
    let prev = stamp_in(earlier)?;
    if prev < last {
        Ok(PageHist::Twice(Two::new(last, prev)))
    } else {
        Err(FrameFault::BadStamp)
    }
}

#[tactic(auto, unfolding(crate::specs::Reading::hist_at))]
fn hist_at(tag: u8, bytes: &[u8]) -> Result<(PageHist, &[u8]), FrameFault>
    ensures { IsReading (λ x. (x.0, x.1.now)) result (hist_at tag bytes.now) }
{
    match tag {
        ONCE_TAG => {
            let (last, rest) = front_at::<STAMP_SIZE>(bytes)?;
            let last = stamp_in(last)?;
            Ok((PageHist::Once(last), rest))
        }
        TWICE_TAG => {
            let (last, rest) = front_at::<STAMP_SIZE>(bytes)?;
            let (prev, rest) = front_at::<STAMP_SIZE>(rest)?;
            let two = two_in(last, prev)?;
            Ok((two, rest))
        }
        _ => Err(FrameFault::BadTag),
    }
}

fn comes_after(before: Option<PageId>, page: PageId) -> bool
    ensures { result ≡ comes_after before page }
{
    match before {
        None => true,
        Some(last) => last < page,
    }
}

// A page, of ten bytes or, in the narrow format, of six.
#[tactic(auto, unfolding(crate::specs::Reading::read_page))]
fn page_at(format: Format, bytes: &[u8]) -> Result<(PageId, &[u8]), FrameFault>
    ensures { IsReading (λ x. (x.0, x.1.now)) result (read_page format bytes.now) }
{
    match format {
        Format::Narrow => {
            let (page, rest) = front_at::<NARROW_PAGE_ID_SIZE>(bytes)?;
            Ok((page_from_narrow(page), rest))
        }
        Format::Wide => {
            let (page, rest) = front_at::<PAGE_ID_SIZE>(bytes)?;
            Ok((page_from(page), rest))
        }
    }
}

// The page and the tag of an entry, and what follows: its stamps.
#[tactic(auto, unfolding(crate::specs::Reading::entry_at))]
fn start_of_entry(
    format: Format,
    before: Option<PageId>,
    bytes: &[u8],
) -> Result<(PageId, u8, &[u8]), FrameFault>
    ensures found { IfOk result (λ x.
        entry_at format before bytes.now ≡ entry_with x.0 (hist_at x.1 x.2.now)) }
    ensures fault { IfErr result (λ fault. entry_at format before bytes.now ≡ Err fault) }
{
    let (page, rest) = page_at(format, bytes)?;
    if !comes_after(before, page) {
        return Err(FrameFault::BadOrder);
    }
    let (tag, rest) = u8_at(rest, FrameFault::BadLength)?;
    Ok((page, tag, rest))
}

// Reads the entries one after the other and appends them to those read before.
fn entries_at<'a>(
    entries: &mut Vec<Entry>,
    format: Format,
    count: u32,
    bytes: &'a [u8],
) -> Result<&'a [u8], FrameFault>
    requires empty { entries.old.items ≡ [] }
    requires capacity { count ≤ vec_capacity entries.old }
    ensures { IsReading (λ rest. (entries.new.items, rest.now)) result
        (entries_from format count bytes.now) }
{
    let mut before = None;
    let mut rest = bytes;
    for _ in 0..count {
        // Not `?`: the proof names the exit of each fault.
        let (page, tag, after) = match start_of_entry(format, before, rest) {
            Ok(start) => start,
            Err(fault) => return Err(fault),
        };
        match hist_at(tag, after) {
            Ok((hist, after)) => {
                entries.push_reserved(Entry { page, hist });
                before = Some(page);
                rest = after;
            }
            Err(fault) => return Err(fault),
        }
    }
    Ok(rest)
}

#[tactic(auto, unfolding(crate::specs::Reading::count_at))]
fn count_at(body: &[u8]) -> Result<(u32, &[u8]), FrameFault>
    ensures { IsReading (λ x. (x.0, x.1.now)) result (count_at body.now) }
{
    let (count, rest) = u32_at(body, FrameFault::BadLength)?;
    if count as usize > MAX_ENTRIES {
        return Err(FrameFault::BadCount);
    }
    Ok((count, rest))
}

// All of these bytes as entries, in a vector with capacity for them.
#[tactic(auto, unfolding(crate::specs::Reading::all_entries))]
fn all_entries(
    mut entries: Vec<Entry>,
    format: Format,
    count: u32,
    bytes: &[u8],
) -> Result<Vec<Entry>, FrameFault>
    requires empty { entries.items ≡ [] }
    requires capacity { count ≤ vec_capacity entries }
    ensures { IsReading (λ all. all.items) result (all_entries format count bytes.now) }
{
    let rest = entries_at(&mut entries, format, count, bytes)?;
    if !rest.is_empty() {
        return Err(FrameFault::BadLength);
    }
    Ok(entries)
}

// The entries of a body. Their capacity is allocated once.
#[tactic(auto, unfolding(crate::specs::Reading::read_entries))]
fn entries_of(alloc: Global, format: Format, body: &[u8]) -> Result<EntryList, FrameFault>
    ensures { GivesReading result (read_entries format body.now) (entries_reserved body.now) }
{
    let (count, rest) = count_at(body)?;
    let entries = Vec::with_capacity(alloc, count as usize)?;
    let entries = all_entries(entries, format, count, rest)?;
    Ok(EntryList::whole(entries))
}

#[tactic(auto, unfolding(crate::specs::Reading::read_digests))]
fn digests_of(body: &[u8]) -> Result<DigestTable, FrameFault>
    ensures { result ≡ read_digests body.now }
{
    let (digests, rest) = body.as_chunks::<DIGEST_SIZE>();
    match digests.as_array::<DIGESTS>() {
        Some(digests) if rest.is_empty() => Ok(DigestTable::of(*digests)),
        _ => Err(FrameFault::BadLength),
    }
}

/// The message that the bytes encode, or the first fault.
#[tactic(auto, unfolding(crate::specs::Reading::read_frame, crate::specs::Reading::read_message, crate::specs::Reading::reserved_by))]
pub(crate) fn message_in(alloc: Global, bytes: &[u8]) -> Result<Message, FrameFault>
    ensures { GivesReading result (read_frame bytes.now) (reserved_by bytes.now) }
{
    // Not `?`, as in `frame_size`.
    let (format, kind, sender, horizon, rest) = match start_at(bytes) {
        Ok(start) => start,
        Err(fault) => return Err(fault),
    };
    let body = body_at(format, kind, rest)?;
    match kind {
        Kind::Entries => {
            let entries = entries_of(alloc, format, body)?;
            Ok(Message::Entries {
                sender,
                horizon,
                entries,
            })
        }
        Kind::Digest => {
            let digests = digests_of(body)?;
            Ok(Message::Digest {
                sender,
                horizon,
                digests,
            })
        }
        Kind::Want => {
            let (bits, _) = u64_at(body, FrameFault::BadLength)?;
            Ok(Message::Want {
                sender,
                horizon,
                request: BucketSet::from_bits(bits),
            })
        }
    }
}
