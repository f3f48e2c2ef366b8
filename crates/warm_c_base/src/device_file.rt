//! The file of a device, which counts its calls and remembers which failed.
ghost use Rattle.std.specs.Prelude.{◌≡◌, false};

use crate::descriptor::Descriptor;
use warm_devices::DeviceCounts;

/// A file of the engine. Once a flush has failed, each later one fails.
///
/// After an `fsync` that failed, the system may have dropped what was written to the file, and the
/// next `fsync` may succeed: it says nothing of what was dropped. So no flush succeeds any more,
/// until the file is opened again.
///
/// It counts its reads, writes and flushes, whether they fail or not, and keeps the errno of the
/// call that failed last.
#[derive(Drop)]
pub struct DeviceFile {
    descriptor: Descriptor,
    calls: DeviceCounts,
    error: i32,
    flush_failed: bool,
    flush_error: i32,
}

impl DeviceFile {
    ghost use Rattle.warm_c_base.specs.FdParts.{Remembers};
    ghost use Rattle.warm_devices.specs.CountedParts.{none_counted, one_flush, one_read, one_write};

    /// Wraps a descriptor, as a file of which no call was made. Nothing is asked of it yet.
    pub fn new(descriptor: Descriptor) -> DeviceFile
        ensures over { result.descriptor ≡ descriptor }
        ensures unfailed { result.flush_failed ≡ false }
        ensures none { result.calls ≡ none_counted }
    {
        DeviceFile {
            descriptor,
            calls: DeviceCounts {
                reads: 0,
                writes: 0,
                flushes: 0,
            },
            error: 0,
            flush_failed: false,
            flush_error: 0,
        }
    }

    /// How many reads, writes and flushes were made.
    pub fn calls(&self) -> DeviceCounts
        ensures { result ≡ self.now.calls }
    {
        self.calls
    }

    /// The errno of the call that failed last; 0 if none has.
    pub fn error(&self) -> i32
        ensures { result ≡ self.now.error }
    {
        self.error
    }

    /// Fills `into` as [`Descriptor::read`] does.
    pub fn read(&mut self, at: u64, into: &mut [u8]) -> bool
        ensures counted { self.new.calls ≡ one_read self.old.calls }
        ensures same { self.new.descriptor ≡ self.old.descriptor }
        ensures kept { self.new.flush_failed ≡ self.old.flush_failed }
    {
        self.calls.reads = self.calls.reads.saturating_add(1);
        if self.descriptor.read(at, into) {
            return true;
        }
        self.error = self.descriptor.failure();
        false
    }

    /// Writes bytes as [`Descriptor::write`] does.
    pub fn write(&mut self, at: u64, bytes: &[u8]) -> bool
        ensures counted { self.new.calls ≡ one_write self.old.calls }
        ensures same { self.new.descriptor ≡ self.old.descriptor }
        ensures kept { self.new.flush_failed ≡ self.old.flush_failed }
    {
        self.calls.writes = self.calls.writes.saturating_add(1);
        if self.descriptor.write(at, bytes) {
            return true;
        }
        self.error = self.descriptor.failure();
        false
    }

    /// Syncs the file. False if that fails, or has failed before: the errno is then that of the
    /// flush that failed.
    pub fn flush(&mut self) -> bool
        ensures remembers { Remembers self.old result self.new }
        ensures counted { self.new.calls ≡ one_flush self.old.calls }
        ensures same { self.new.descriptor ≡ self.old.descriptor }
    {
        self.calls.flushes = self.calls.flushes.saturating_add(1);
        if self.flush_failed {
            self.error = self.flush_error;
            return false;
        }
        if self.descriptor.flush() {
            return true;
        }
        let error = self.descriptor.failure();
        self.error = error;
        self.flush_error = error;
        self.flush_failed = true;
        false
    }
}
