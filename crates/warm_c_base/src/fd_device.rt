//! A device over a file descriptor of the engine. What its file holds is nothing that a contract
//! can say.
ghost use Rattle.std.specs.Prelude.{◌≡◌, ◌*◌, ◌^◌, ◌<◌, ◌≤◌, IfNone, IfSome, false};

use crate::counters::WarmDeviceCounters;
use crate::descriptor::Descriptor;
use crate::device_file::DeviceFile;
use warm_devices::{CallsMade, DeviceFault, PageDevice};

/// Pages in a file that the engine opened, one after another from its start. A flush syncs the
/// file.
///
/// Pages past the end of the file read as zeros, and a write of one extends the file. The
/// descriptor is the engine's: it is not closed here. The device is safe whatever the descriptor is
/// and the file contains, and it counts its calls and its failures. It claims nothing of the bytes.
/// Once a flush has failed, each later one fails, as [`DeviceFile`] says.
pub struct FdDevice {
    file: DeviceFile,
    pages: u64,
    page_size: usize,
    waiting: bool,
    failures: u64,
    calls: CallsMade,
    ghost fits: { pages * page_size < 2 ^ 63 },
}

impl FdDevice {
    ghost use Rattle.warm_c_base.specs.FdParts.{fd_opened, fd_state};

    /// Creates a device of `pages` pages of `page_size` bytes over the descriptor of this number,
    /// which is not called yet. `None` exactly if the pages do not fit into 2^63 - 1 bytes, which
    /// is what a file's offsets can name.
    pub fn new(fd: i32, pages: u64, page_size: usize) -> Option<FdDevice>
        ensures opened { IfSome result (λ device.
            fd_state device ≡ fd_opened fd pages page_size) }
        ensures unfailed { IfSome result (λ device. device.file.flush_failed ≡ false) }
        ensures fits { IfSome result (λ _. pages * page_size < 2 ^ 63) }
        ensures refused { IfNone result (2 ^ 63 ≤ pages * page_size) }
    {
        match pages.checked_mul(page_size as u64) {
            Some(len) if len < 1 << 63 => Some(FdDevice {
                file: DeviceFile::new(Descriptor::new(fd)),
                pages,
                page_size,
                waiting: false,
                failures: 0,
                calls: CallsMade::new(),
            }),
            _ => None,
        }
    }

    /// Returns how many reads, writes and flushes were made, and how many of them failed. A flush
    /// that is refused since one failed before is counted too.
    pub fn counters(&self) -> WarmDeviceCounters
        ensures reads { result.reads ≡ self.now.file.calls.reads }
        ensures writes { result.writes ≡ self.now.file.calls.writes }
        ensures flushes { result.flushes ≡ self.now.file.calls.flushes }
        ensures failures { result.failures ≡ (fd_state self.now).failures }
    {
        let calls = self.file.calls();
        WarmDeviceCounters {
            reads: calls.reads,
            writes: calls.writes,
            flushes: calls.flushes,
            failures: self.failures,
        }
    }

    /// Returns the errno of the call that failed last; 0 if none has.
    pub fn error(&self) -> i32
        ensures { result ≡ self.now.file.error }
    {
        self.file.error()
    }
}

impl PageDevice for FdDevice {
    ghost use Rattle.warm_c_base.specs.FdParts.{fd_state};

    ghost state = { fd_state };

    fn pages(&self) -> u64 {
        self.pages
    }

    fn page_size(&self) -> usize {
        self.page_size
    }

    fn waiting(&self) -> bool {
        self.waiting
    }

    fn failures(&self) -> u64 {
        self.failures
    }

    fn read(&mut self, no: u64, into: &mut [u8]) -> Result<(), DeviceFault> {
        self.calls.note(DeviceFault::Read);
        let at = no * self.page_size as u64;
        if !self.file.read(at, into) {
            self.failures = self.failures.saturating_add(1);
            return Err(DeviceFault::Read);
        }
        Ok(())
    }

    fn write(&mut self, no: u64, bytes: &[u8]) -> Result<(), DeviceFault> {
        self.calls.note(DeviceFault::Write);
        self.waiting = true;
        let at = no * self.page_size as u64;
        if !self.file.write(at, bytes) {
            self.failures = self.failures.saturating_add(1);
            return Err(DeviceFault::Write);
        }
        Ok(())
    }

    fn flush(&mut self) -> Result<(), DeviceFault> {
        self.calls.note(DeviceFault::Flush);
        if !self.file.flush() {
            self.failures = self.failures.saturating_add(1);
            return Err(DeviceFault::Flush);
        }
        self.waiting = false;
        Ok(())
    }

    fn settle(&mut self) {
        if self.waiting {
            let _ = self.flush();
        }
    }
}

impl Drop for FdDevice {
    fn drop(mut self) {
        self.settle();
        let FdDevice {
            file,
            pages: _,
            page_size: _,
            waiting: _,
            failures: _,
            calls,
        } = self;
        drop(file);
        drop(calls);
    }
}
