//! Stamps and pages as bytes, the highest byte of each number first.
ghost use Rattle.std.specs.Prelude.{◌≡◌, ◌↔◌, IfOk, IsOk};
ghost use Rattle.warm_stamps.specs.Bytes.{bytes_of_stamp, stamp_of, bytes_of_page, page_from_bytes};
ghost use Rattle.warm_stamps.specs.Bytes.{narrow_bytes_of_page, page_of_narrow, IsReplica};

use crate::{BadReplica, PageId, ReplicaId, Stamp};

/// The ten bytes of a stamp: eight of its time, then two of its replica's number.
pub fn stamp_bytes(stamp: Stamp) -> [u8; 10]
    ensures spelled { result ≡ bytes_of_stamp stamp }
    ensures back { stamp_of result ≡ stamp }
{
    let [a, b, c, d, e, f, g, h] = stamp.time.to_be_bytes();
    let [high, low] = stamp.replica.get().to_be_bytes();
    [a, b, c, d, e, f, g, h, high, low]
}

/// The stamp of these ten bytes. `BadReplica` occurs exactly if the last two are not a valid
/// replica number.
pub fn stamp_from(bytes: &[u8; 10]) -> Result<Stamp, BadReplica>
    ensures value { IfOk result (λ stamp. stamp ≡ stamp_of bytes.now) }
    ensures spelled { IfOk result (λ stamp. bytes_of_stamp stamp ≡ bytes.now) }
    ensures taken { IsOk result ↔ IsReplica (stamp_of bytes.now).replica }
{
    let [a, b, c, d, e, f, g, h, high, low] = *bytes;
    let replica = ReplicaId::new(u16::from_be_bytes([high, low]))?;
    Ok(Stamp {
        time: u64::from_be_bytes([a, b, c, d, e, f, g, h]),
        replica,
    })
}

/// The ten bytes of a page: two of its device's number, then eight of its page number.
pub fn page_bytes(page: PageId) -> [u8; 10]
    ensures spelled { result ≡ bytes_of_page page }
    ensures back { page_from_bytes result ≡ page }
{
    let [high, low] = page.dev.to_be_bytes();
    let [a, b, c, d, e, f, g, h] = page.no.to_be_bytes();
    [high, low, a, b, c, d, e, f, g, h]
}

/// The page of these ten bytes.
pub fn page_from(bytes: &[u8; 10]) -> PageId
    ensures value { result ≡ page_from_bytes bytes.now }
    ensures spelled { bytes_of_page result ≡ bytes.now }
{
    let [high, low, a, b, c, d, e, f, g, h] = *bytes;
    PageId {
        dev: u16::from_be_bytes([high, low]),
        no: u64::from_be_bytes([a, b, c, d, e, f, g, h]),
    }
}

/// The page of these six bytes, the encoding used while page numbers had 32 bits: two of its
/// device's number, then four of its page number.
pub fn page_from_narrow(bytes: &[u8; 6]) -> PageId
    ensures value { result ≡ page_of_narrow bytes.now }
    ensures spelled { narrow_bytes_of_page result ≡ bytes.now }
{
    let [high, low, a, b, c, d] = *bytes;
    PageId {
        dev: u16::from_be_bytes([high, low]),
        no: u64::from(u32::from_be_bytes([a, b, c, d])),
    }
}
