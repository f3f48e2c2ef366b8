//! A device that keeps its pages in memory.
ghost use Rattle.std.specs.Prelude.{◌≡◌, ◌+◌, ◌-◌, ◌*◌, ◌^◌, ◌<◌, ◌≤◌, length, replicate, IfOk};
ghost use Rattle.warm_devices.specs.Device.{zeroed};
ghost use Rattle.warm_devices.specs.Pieces.{with_part};

use crate::{CallsMade, DeviceFault, PageDevice};
use std::alloc::{AllocError, Global};
use std::marker::Model;
use std::ops::Range;

/// Pages in memory. It never fails, and returns what was written.
///
/// It allocates the bytes of all pages in one block, and nothing else.
pub struct MemDevice {
    // One page after the other.
    bytes: Vec<u8>,
    pages: u64,
    page_size: usize,
    waiting: bool,
    calls: CallsMade,
}

impl Model for MemDevice {
    ghost use Rattle.std.specs.Prelude.{◌≡◌, ◌*◌, length, true};
    ghost use Rattle.warm_devices.specs.Device.{DeviceState};
    ghost use Rattle.warm_devices.specs.Pieces.{equal_pieces};

    ghost Value = { DeviceState };

    ghost view = { λ m. record {
      pages = m.pages;
      page_size = m.page_size;
      contents = equal_pieces m.pages m.page_size m.bytes.items;
      waiting = m.waiting;
      failures = 0;
      calls = m.calls.made;
      honest = true;
      unfailing = true;
    } };

    ghost invariant = { λ m. length m.bytes.items ≡ m.pages * m.page_size };
}

impl MemDevice {
    /// A device of zero pages: `pages` of them, of `page_size` bytes each.
    ///
    /// # Errors
    /// If the allocation of the pages fails, or their size exceeds any memory.
    pub fn new(alloc: Global, pages: u64, page_size: usize) -> Result<MemDevice, AllocError>
        ensures { IfOk result (λ device. device ≡ zeroed pages page_size) }
    {
        let bytes = zeros(alloc, pages as usize, page_size)?;
        Ok(MemDevice {
            bytes,
            pages,
            page_size,
            waiting: false,
            calls: CallsMade::new(),
        })
    }
}

// The zeros of this many pages of one size.
fn zeros(alloc: Global, pages: usize, page_size: usize) -> Result<Vec<u8>, AllocError>
    ensures { IfOk result (λ bytes. bytes.items ≡ replicate (pages * page_size) 0) }
{
    let Some(size) = pages.checked_mul(page_size) else {
        return Err(AllocError);
    };
    Vec::from_elem(alloc, 0, size)
}

// The range of a page within the bytes of all pages.
fn place_of(no: u64, page_size: usize) -> Range<usize>
    requires { (no + 1) * page_size < 2 ^ 64 }
    ensures start { result.start ≡ no * page_size }
    ensures end { result.end ≡ no * page_size + page_size }
{
    let start = no as usize * page_size;
    start..start + page_size
}

// Overwrites a range with the bytes.
fn write_at(all: &mut Vec<u8>, place: Range<usize>, bytes: &[u8])
    requires ordered { place.start ≤ place.end }
    requires inside { place.end ≤ length all.old.items }
    requires sized { length bytes.now ≡ place.end - place.start }
    ensures part { all.new.items ≡ with_part place.start place.end bytes.now all.old.items }
{
    all[place].copy_from_slice(bytes);
}

impl PageDevice for MemDevice {
    ghost state = { λ device. device };

    fn pages(&self) -> u64 {
        self.pages
    }

    fn page_size(&self) -> usize {
        self.page_size
    }

    fn waiting(&self) -> bool {
        self.waiting
    }

    fn failures(&self) -> u64 {
        // The proof knows the type's model, by which nothing has failed, only after a field is
        // read.
        let _waiting = &self.waiting;
        0
    }

    fn read(&mut self, no: u64, into: &mut [u8]) -> Result<(), DeviceFault> {
        let place = place_of(no, self.page_size);
        into.copy_from_slice(&self.bytes[place]);
        self.calls.note(DeviceFault::Read);
        Ok(())
    }

    fn write(&mut self, no: u64, bytes: &[u8]) -> Result<(), DeviceFault> {
        let place = place_of(no, self.page_size);
        write_at(&mut self.bytes, place, bytes);
        self.waiting = true;
        self.calls.note(DeviceFault::Write);
        Ok(())
    }

    fn flush(&mut self) -> Result<(), DeviceFault> {
        self.waiting = false;
        self.calls.note(DeviceFault::Flush);
        Ok(())
    }

    fn settle(&mut self) {
        if self.waiting {
            let _ = self.flush();
        }
    }
}

impl Drop for MemDevice {
    fn drop(mut self) {
        self.settle();
        let MemDevice {
            bytes,
            pages: _,
            page_size: _,
            waiting: _,
            calls,
        } = self;
        drop(bytes);
        drop(calls);
    }
}
