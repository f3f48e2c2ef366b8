//! A device over a file of the operating system. No contract can say what the file holds.
ghost use Rattle.std.specs.Prelude.{◌≡◌, ◌*◌, ◌^◌, ◌<◌, ◌≤◌, Err, IfOk, false, []};
ghost use Rattle.warm_devices.specs.declared.fault.OpenFault.TheVariants.{Open};
ghost use Rattle.warm_devices.specs.Calls.{no_calls};
ghost use Rattle.warm_devices.specs.Device.{DeviceState};

use crate::{CallsMade, DeviceFault, OpenFault, PageDevice};
use std::fs::{File, Files, OpenOptions};
use std::io;
use std::os::unix::fs::FileExt;

/// Pages in a file, one after another from its start. A flush syncs the file.
///
/// The device is safe whatever the file returns, and it counts its failures. It claims nothing
/// about the bytes.
///
/// Once a flush has failed, each later flush of the device fails too. The system may have dropped
/// the pages that it could not write, and a later sync would then succeed without them. Only
/// opening the file again gives a device that can be flushed; what was written since the last flush
/// that succeeded may be lost.
pub struct FileDevice {
    file: File,
    pages: u64,
    page_size: usize,
    waiting: bool,
    failures: u64,
    /// Whether a flush has failed.
    flush_failed: bool,
    calls: CallsMade,
    ghost fits: { pages * page_size < 2 ^ 63 },
}

fn open_sized<R: Files<File = File>>(files: &R, path: &str, len: u64) -> io::Result<File> {
    let file = OpenOptions::new()
        .read(true)
        .write(true)
        .create(true)
        .open(files, path)?;
    if file.metadata()?.len() < len {
        file.set_len(len)?;
    }
    Ok(file)
}

impl FileDevice {
    ghost use Rattle.warm_devices.specs.FileParts.{file_state, flush_failed};

    /// Opens the file at `path` as a device of `pages` pages of `page_size` bytes, creates it if it
    /// does not exist, and extends a shorter one with zeros. A longer one keeps its length.
    ///
    /// # Errors
    /// `Open` if the system fails to open, create or extend the file, or if the pages exceed 2^63 -
    /// 1 bytes, which is checked before any system call; `Memory` if the system or the allocator
    /// had no memory.
    pub fn open<R: Files<File = File>>(
        files: &R,
        path: &str,
        pages: u64,
        page_size: usize,
    ) -> Result<FileDevice, OpenFault>
        ensures opened { IfOk result (λ device. file_state device ≡ record {
          pages = pages;
          page_size = page_size;
          contents = [];
          waiting = false;
          failures = 0;
          calls = no_calls;
          honest = false;
          unfailing = false;
        }) }
        ensures unfailed { IfOk result (λ device. flush_failed device ≡ false) }
        ensures too_large { 2 ^ 63 ≤ pages * page_size → result ≡ Err Open }
    {
        let len = match pages.checked_mul(page_size as u64) {
            Some(len) if len < 1 << 63 => len,
            _ => return Err(OpenFault::Open),
        };
        let file = open_sized(files, path, len)?;
        Ok(FileDevice {
            file,
            pages,
            page_size,
            waiting: false,
            failures: 0,
            flush_failed: false,
            calls: CallsMade::new(),
        })
    }
}

impl PageDevice for FileDevice {
    ghost use Rattle.std.specs.Prelude.{◌≡◌, ◌<◌, IsTrue, IsOk, OnOk, OnErr, length, true, false};
    ghost use Rattle.warm_devices.specs.Device.{DeviceState, SameShape, CountsFault, ChangesOnly};
    ghost use Rattle.warm_devices.specs.Device.{GivesPage, CountsCall, CountsSettle};
    ghost use Rattle.warm_devices.specs.Device.{TakesPage, SameWaiting, Settles, SettlesSurely};
    ghost use Rattle.warm_devices.specs.FileParts.{file_state, flush_failed, RemembersFailure};
    ghost use Rattle.warm_devices.specs.FileParts.{SettlesUnlessFailed};
    ghost use Rattle.warm_devices.specs.declared.fault.DeviceFault.TheVariants.{Read, Write, Flush};

    ghost state = { file_state };

    fn pages(&self) -> u64 {
        self.pages
    }

    fn page_size(&self) -> usize {
        self.page_size
    }

    fn waiting(&self) -> bool {
        self.waiting
    }

    fn failures(&self) -> u64 {
        self.failures
    }

    fn read(&mut self, no: u64, into: &mut [u8]) -> Result<(), DeviceFault>
        requires known { no < (file_state self.old).pages }
        requires sized { length into.old ≡ (file_state self.old).page_size }
        ensures shape { SameShape (file_state self.old) (file_state self.new) }
        ensures faults { CountsFault Read result (file_state self.old) (file_state self.new) }
        ensures calls { CountsCall Read (file_state self.old) (file_state self.new) }
        ensures unfailing { IsTrue (file_state self.old).unfailing → IsOk result }
        ensures waiting { (file_state self.new).waiting ≡ (file_state self.old).waiting }
        ensures contents { (file_state self.new).contents ≡ (file_state self.old).contents }
        ensures bytes { OnOk result (GivesPage (file_state self.old) no into.new) }
        ensures kept { flush_failed self.new ≡ flush_failed self.old }
    {
        self.calls.note(DeviceFault::Read);
        let at = no * self.page_size as u64;
        if self.file.read_exact_at(into, at).is_err() {
            self.failures = self.failures.saturating_add(1);
            return Err(DeviceFault::Read);
        }
        Ok(())
    }

    fn write(&mut self, no: u64, bytes: &[u8]) -> Result<(), DeviceFault>
        requires known { no < (file_state self.old).pages }
        requires sized { length bytes.now ≡ (file_state self.old).page_size }
        ensures shape { SameShape (file_state self.old) (file_state self.new) }
        ensures faults { CountsFault Write result (file_state self.old) (file_state self.new) }
        ensures calls { CountsCall Write (file_state self.old) (file_state self.new) }
        ensures unfailing { IsTrue (file_state self.old).unfailing → IsOk result }
        ensures waiting { (file_state self.new).waiting ≡ true }
        ensures others { ChangesOnly no (file_state self.old) (file_state self.new) }
        ensures bytes { OnOk result
            (TakesPage (file_state self.old) no bytes.now (file_state self.new)) }
        ensures kept { flush_failed self.new ≡ flush_failed self.old }
    {
        self.calls.note(DeviceFault::Write);
        self.waiting = true;
        let at = no * self.page_size as u64;
        if self.file.write_all_at(bytes, at).is_err() {
            self.failures = self.failures.saturating_add(1);
            return Err(DeviceFault::Write);
        }
        Ok(())
    }

    /// Syncs the file. It also fails if an earlier flush of this device failed.
    fn flush(&mut self) -> Result<(), DeviceFault>
        ensures shape { SameShape (file_state self.old) (file_state self.new) }
        ensures faults { CountsFault Flush result (file_state self.old) (file_state self.new) }
        ensures calls { CountsCall Flush (file_state self.old) (file_state self.new) }
        ensures unfailing { IsTrue (file_state self.old).unfailing → IsOk result }
        ensures flushed { OnOk result ((file_state self.new).waiting ≡ false) }
        ensures failed { OnErr result (SameWaiting (file_state self.old) (file_state self.new)) }
        ensures contents { (file_state self.new).contents ≡ (file_state self.old).contents }
        ensures remembered { RemembersFailure result self.old self.new }
    {
        self.calls.note(DeviceFault::Flush);
        // The system may have dropped the pages of a failed sync: the next one says nothing of
        // them.
        if self.flush_failed || self.file.sync_all().is_err() {
            self.flush_failed = true;
            self.failures = self.failures.saturating_add(1);
            return Err(DeviceFault::Flush);
        }
        self.waiting = false;
        Ok(())
    }

    fn settle(&mut self)
        ensures shape { SameShape (file_state self.old) (file_state self.new) }
        ensures settled { Settles (file_state self.old) (file_state self.new) }
        ensures calls { CountsSettle (file_state self.old) (file_state self.new) }
        ensures unfailing { SettlesSurely (file_state self.old) (file_state self.new) }
        ensures contents { (file_state self.new).contents ≡ (file_state self.old).contents }
        ensures remembered { SettlesUnlessFailed self.old self.new }
    {
        if self.waiting {
            let _ = self.flush();
        }
    }
}

impl Drop for FileDevice {
    fn drop(mut self) {
        self.settle();
        let FileDevice {
            file,
            pages: _,
            page_size: _,
            waiting: _,
            failures: _,
            flush_failed: _,
            calls,
        } = self;
        drop(file);
        drop(calls);
    }
}
