//! Hooks that record what the drop of a device finds, and how often a device is written to and
//! dropped.
//!
//! No contract can say what happens to a device that was dropped: a test reads the [`DeviceNote`].
ghost use Rattle.std.specs.Prelude.{◌≡◌, IfOk};
ghost use Rattle.test_kit.specs.HookedParts.{hooked_state};
ghost use Rattle.warm_devices.specs.Device.{zeroed};

use crate::{HookedDevice, Hooks};
use std::alloc::{AllocError, Global};
use std::sync::Arc;
use std::sync::atomic::{AtomicU8, AtomicU64, Ordering};
use warm_devices::MemDevice;

/// What a drop found unflushed.
#[derive(Clone, Copy, PartialEq, Eq, Debug)]
pub enum Found {
    /// No drop has begun.
    NoDrop,
    /// Nothing was unflushed.
    Settled,
    /// A page that was written was unflushed.
    Waiting,
}

/// The contents of a device when its drop began, and how often it was written to and dropped. It
/// outlives the device.
#[derive(Drop)]
pub struct DeviceNote {
    found: AtomicU8,
    writes: AtomicU64,
    drops: AtomicU64,
    pages: Vec<Vec<AtomicU8>>,
}

impl DeviceNote {
    /// A note without entries, for a device of `pages` pages of `page_size` bytes.
    ///
    /// # Errors
    /// If its allocation fails.
    pub fn blank(
        alloc: Global,
        pages: u64,
        page_size: usize,
    ) -> Result<Arc<DeviceNote, Global>, AllocError> {
        let mut all = Vec::with_capacity(alloc, pages as usize)?;
        for _ in 0..pages {
            let mut page = Vec::with_capacity(alloc, page_size)?;
            for _ in 0..page_size {
                page.push(AtomicU8::new(0))?;
            }
            all.push(page)?;
        }
        let note = DeviceNote {
            found: AtomicU8::new(0),
            writes: AtomicU64::new(0),
            drops: AtomicU64::new(0),
            pages: all,
        };
        Ok(Arc::new(alloc, note)?)
    }

    /// What the drop found unflushed.
    pub fn found(&self) -> Found {
        match self.found.load(Ordering::SeqCst) {
            0 => Found::NoDrop,
            1 => Found::Settled,
            _ => Found::Waiting,
        }
    }

    /// The number of writes, and the number of drops that have begun.
    pub fn counts(&self) -> (u64, u64) {
        let writes = self.writes.load(Ordering::SeqCst);
        (writes, self.drops.load(Ordering::SeqCst))
    }

    /// Whether the drop found exactly these bytes in page `no`.
    pub fn has(&self, no: u64, bytes: &[u8]) -> bool {
        let Some(page) = self.pages.get(no as usize) else {
            return false;
        };
        page.len() == bytes.len()
            && page
                .iter()
                .zip(bytes)
                .all(|(noted, byte)| noted.load(Ordering::SeqCst) == *byte)
    }
}

impl Hooks for Arc<DeviceNote, Global> {
    fn before_read(&self) {}

    fn before_write(&self) {
        self.writes.fetch_add(1, Ordering::SeqCst);
    }

    fn at_drop(&self, waiting: bool) {
        self.drops.fetch_add(1, Ordering::SeqCst);
        let found = if waiting { 2 } else { 1 };
        self.found.store(found, Ordering::SeqCst);
    }

    fn page_at_drop(&self, no: u64, bytes: &[u8]) {
        let Some(page) = self.pages.get(no as usize) else {
            return;
        };
        for (noted, byte) in page.iter().zip(bytes) {
            noted.store(*byte, Ordering::SeqCst);
        }
    }
}

/// A device in memory that records its drop.
pub type Noting = HookedDevice<Arc<DeviceNote, Global>>;

/// A device of `pages` pages of `page_size` zeros that records its drop, and the note.
///
/// # Errors
/// If their allocation fails.
pub fn noting(
    alloc: Global,
    pages: u64,
    page_size: usize,
) -> Result<(Noting, Arc<DeviceNote, Global>), AllocError>
    ensures { IfOk result (λ made. hooked_state made.0 ≡ zeroed pages page_size) }
{
    let note = DeviceNote::blank(alloc, pages, page_size)?;
    let other = Arc::try_clone(&note)?;
    let inner = MemDevice::new(alloc, pages, page_size)?;
    let device = HookedDevice::new(alloc, inner, other)?;
    Ok((device, note))
}
