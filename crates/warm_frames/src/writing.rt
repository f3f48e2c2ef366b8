//! Writing frames. The capacity for all bytes is allocated first.
ghost use Rattle.std.specs.Prelude.{◌≡◌, ◌≤◌, ◌+◌, ◌*◌, ◌∷◌, ◌++◌, length, vec_len, vec_capacity};
ghost use Rattle.std.specs.Prelude.{IfOk, OnOk, OnErr, IsOk};
ghost use Rattle.warm_stamps.specs.Bytes.{IsReplica, bytes_of_page, bytes_of_stamp};
ghost use Rattle.warm_frames.specs.declared.layout.TheConstants.{MAX_ENTRIES, MAX_ENTRY_SIZE};
ghost use Rattle.warm_frames.specs.declared.layout.TheConstants.{ONCE_TAG, PAGE_ID_SIZE};
ghost use Rattle.warm_frames.specs.declared.layout.TheConstants.{STAMP_SIZE, TWICE_SIZE, TWICE_TAG};
ghost use Rattle.warm_frames.specs.declared.format.Format.TheVariants.{Wide};
ghost use Rattle.warm_frames.specs.declared.message.Message.TheVariants as messages;
ghost use Rattle.warm_frames.specs.Entries.{hist_bytes, entry_bytes, entries_bytes};
ghost use Rattle.warm_frames.specs.Encoding.{header_bytes, EncodesIn};

use crate::digests::DigestTable;
use crate::entries::EntryList;
use crate::layout::{
    COUNT_SIZE, DIGEST_KIND, ENTRIES_KIND, HEADER_SIZE, MAGIC, MAX_ENTRY_SIZE, ONCE_SIZE, ONCE_TAG,
    PAGE_ID_SIZE, REQUEST_SIZE, STAMP_SIZE, TABLE_SIZE, TAG_SIZE, TWICE_SIZE, TWICE_TAG, WANT_KIND,
};
use std::alloc::{AllocError, Global};
use warm_history::{Entry, PageHist};
use warm_stamps::{BucketSet, PageId, ReplicaId, Stamp};

// The header of a frame, with capacity for a body of this length.
fn header(
    alloc: Global,
    kind: u8,
    sender: ReplicaId,
    horizon: u64,
    len: u32,
) -> Result<Vec<u8>, AllocError>
    ensures text { IfOk result (λ text. text.items ≡ header_bytes Wide kind sender horizon len) }
    ensures sender { IsReplica sender }
{
    let mut text = Vec::with_capacity(alloc, HEADER_SIZE + len as usize)?;
    text.extend_from_slice(&MAGIC.to_be_bytes())?;
    text.push(kind)?;
    text.extend_from_slice(&sender.get().to_be_bytes())?;
    text.extend_from_slice(&horizon.to_be_bytes())?;
    text.extend_from_slice(&len.to_be_bytes())?;
    Ok(text)
}

// Sets ten bytes to those of a page. Each number is copied separately: an array of single bytes
// would be stored byte by byte.
fn set_page(bytes: &mut [u8], page: PageId)
    requires { length bytes.old ≡ PAGE_ID_SIZE }
    ensures { bytes.new ≡ bytes_of_page page }
{
    bytes[..2].copy_from_slice(&page.dev.to_be_bytes());
    bytes[2..].copy_from_slice(&page.no.to_be_bytes());
}

// Sets ten bytes to those of a stamp.
fn set_stamp(bytes: &mut [u8], stamp: Stamp)
    requires { length bytes.old ≡ STAMP_SIZE }
    ensures { bytes.new ≡ bytes_of_stamp stamp }
{
    bytes[..8].copy_from_slice(&stamp.time.to_be_bytes());
    bytes[8..].copy_from_slice(&stamp.replica.get().to_be_bytes());
}

// The bytes of an entry with one stamp. The array is filled with the tag first, and one byte
// remains the tag.
fn once_bytes(page: PageId, last: Stamp) -> [u8; PAGE_ID_SIZE + ONCE_SIZE]
    ensures { result ≡ bytes_of_page page ++ ONCE_TAG ∷ bytes_of_stamp last }
{
    let mut bytes = [ONCE_TAG; PAGE_ID_SIZE + ONCE_SIZE];
    set_page(&mut bytes[..PAGE_ID_SIZE], page);
    set_stamp(&mut bytes[PAGE_ID_SIZE + TAG_SIZE..], last);
    bytes
}

// The bytes of an entry with two stamps, made in the same way.
fn twice_bytes(page: PageId, last: Stamp, prev: Stamp) -> [u8; MAX_ENTRY_SIZE]
    ensures { result
        ≡ bytes_of_page page ++ TWICE_TAG ∷ bytes_of_stamp last ++ bytes_of_stamp prev }
{
    let mut bytes = [TWICE_TAG; MAX_ENTRY_SIZE];
    set_page(&mut bytes[..PAGE_ID_SIZE], page);
    set_stamp(
        &mut bytes[PAGE_ID_SIZE + TAG_SIZE..PAGE_ID_SIZE + ONCE_SIZE],
        last,
    );
    set_stamp(&mut bytes[PAGE_ID_SIZE + ONCE_SIZE..], prev);
    bytes
}

/// Appends to the text the bytes of an entry, as they are in a frame and as they are digested: its
/// page, a tag, which is the number of its stamps, and the stamps, the later one first.
///
/// `AllocError` occurs only if their allocation fails, so never if the text has capacity for them.
/// They are at most [`crate::MAX_ENTRY_SIZE`] bytes. The text is then unchanged. Its capacity never
/// shrinks.
pub fn put_entry(text: &mut Vec<u8>, entry: &Entry) -> Result<(), AllocError>
    ensures items { OnOk result (text.new.items ≡ text.old.items ++ entry_bytes entry.now) }
    ensures err { OnErr result (text.new.items ≡ text.old.items) }
    ensures succeeds { vec_len text.old + length (entry_bytes entry.now) ≤ vec_capacity text.old
        → IsOk result }
    ensures capacity { vec_capacity text.old ≤ vec_capacity text.new }
{
    match entry.hist {
        PageHist::Once(last) => {
            text.extend_from_slice(&once_bytes(entry.page, last))?;
        }
        PageHist::Twice(two) => {
            let last = two.last();
            let prev = two.prev();
            text.extend_from_slice(&twice_bytes(entry.page, last, prev))?;
        }
    }
    Ok(())
}

fn hist_len(hist: PageHist) -> u32
    ensures value { result ≡ length (hist_bytes hist) }
    ensures most { result ≤ TWICE_SIZE }
{
    match hist {
        PageHist::Once(_) => ONCE_SIZE as u32,
        PageHist::Twice(_) => TWICE_SIZE as u32,
    }
}

// The size of the entries in bytes.
fn entries_len(entries: &[Entry]) -> u32
    requires { length entries.now ≤ MAX_ENTRIES }
    ensures value { result ≡ length (entries_bytes entries.now) }
    ensures most { result ≤ MAX_ENTRY_SIZE * MAX_ENTRIES }
{
    let mut len = 0;
    for entry in entries {
        len += PAGE_ID_SIZE as u32 + hist_len(entry.hist);
    }
    len
}

pub(crate) fn entries_text(
    alloc: Global,
    sender: ReplicaId,
    horizon: u64,
    entries: &EntryList,
) -> Result<Vec<u8>, AllocError>
    ensures { IfOk result (λ text. EncodesIn Wide text.items
        (messages.Entries sender horizon entries.now)) }
{
    let entries = entries.as_slice();
    let len = COUNT_SIZE as u32 + entries_len(entries);
    let mut text = header(alloc, ENTRIES_KIND, sender, horizon, len)?;
    text.extend_from_slice(&(entries.len() as u32).to_be_bytes())?;
    for entry in entries {
        put_entry(&mut text, entry)?;
    }
    Ok(text)
}

pub(crate) fn digest_text(
    alloc: Global,
    sender: ReplicaId,
    horizon: u64,
    digests: &DigestTable,
) -> Result<Vec<u8>, AllocError>
    ensures { IfOk result (λ text. EncodesIn Wide text.items
        (messages.Digest sender horizon digests.now)) }
{
    let mut text = header(alloc, DIGEST_KIND, sender, horizon, TABLE_SIZE as u32)?;
    text.extend_from_slice(digests.as_bytes())?;
    Ok(text)
}

pub(crate) fn want_text(
    alloc: Global,
    sender: ReplicaId,
    horizon: u64,
    request: BucketSet,
) -> Result<Vec<u8>, AllocError>
    ensures { IfOk result (λ text.
        EncodesIn Wide text.items (messages.Want sender horizon request)) }
{
    let mut text = header(alloc, WANT_KIND, sender, horizon, REQUEST_SIZE as u32)?;
    text.extend_from_slice(&request.bits().to_be_bytes())?;
    Ok(text)
}
