//! The contract of page devices.
ghost use Rattle.std.specs.Prelude.{◌≡◌, ◌<◌, IsTrue, IsOk, OnOk, OnErr, length, true, false};
ghost use Rattle.warm_devices.specs.Device.{DeviceState, SameShape, CountsFault, ChangesPage};
ghost use Rattle.warm_devices.specs.Device.{GivesPage, TakesPage, Settles};
ghost use Rattle.warm_devices.specs.Device.{CountsCall, CountsSettle};
ghost use Rattle.warm_devices.specs.declared.fault.DeviceFault.TheVariants.{Read, Write, Flush};

use crate::DeviceFault;

/// A device of numbered pages of one size.
///
/// No call changes the number of pages, their size, or whether the device is honest and unfailing.
/// No call lowers `failures`. Contracts count the reads, writes and flushes of a device, whether
/// they fail or not (`calls` of its `state`); a device notes its own in a [`crate::CallsMade`]. All
/// calls are allocation-free. The drop of a device settles it first.
pub trait PageDevice: Drop {
    /// The state of the device, as plain data.
    ghost state: { Self → DeviceState };

    /// The number of pages. They are numbered from 0.
    fn pages(&self) -> u64
        ensures { result ≡ (state self.now).pages };

    /// The size of a page, in bytes.
    fn page_size(&self) -> usize
        ensures { result ≡ (state self.now).page_size };

    /// Whether the device has unflushed writes: a page was written since the last flush.
    fn waiting(&self) -> bool
        ensures { result ≡ (state self.now).waiting };

    /// The number of calls that have failed; it saturates at `u64::MAX`.
    fn failures(&self) -> u64
        ensures { result ≡ (state self.now).failures };

    /// Reads page `no` into the whole of `into`, which has the size of a page.
    ///
    /// # Errors
    /// Only `Read`. Contents and unflushed writes are unchanged; `into` may hold any bytes.
    fn read(&mut self, no: u64, into: &mut [u8]) -> Result<(), DeviceFault>
        requires known { no < (state self.old).pages }
        requires sized { length into.old ≡ (state self.old).page_size }
        ensures shape { SameShape (state self.old) (state self.new) }
        ensures faults { CountsFault Read result (state self.old) (state self.new) }
        ensures calls { CountsCall Read (state self.old) (state self.new) }
        ensures unfailing { IsTrue (state self.old).unfailing → IsOk result }
        ensures waiting { (state self.new).waiting ≡ (state self.old).waiting }
        ensures contents { (state self.new).contents ≡ (state self.old).contents }
        ensures bytes { OnOk result (GivesPage (state self.old) no into.new) };

    /// Writes the bytes of page `no`, which have the size of a page. They are durable only after
    /// the next flush.
    ///
    /// # Errors
    /// Only `Write`. The page may then hold any bytes; all others are unchanged, and the device
    /// counts as unflushed.
    fn write(&mut self, no: u64, bytes: &[u8]) -> Result<(), DeviceFault>
        requires known { no < (state self.old).pages }
        requires sized { length bytes.now ≡ (state self.old).page_size }
        ensures shape { SameShape (state self.old) (state self.new) }
        ensures faults { CountsFault Write result (state self.old) (state self.new) }
        ensures calls { CountsCall Write (state self.old) (state self.new) }
        ensures unfailing { IsTrue (state self.old).unfailing → IsOk result }
        ensures waiting { (state self.new).waiting ≡ true }
        ensures others { ChangesPage no (state self.old).contents (state self.new).contents }
        ensures bytes { OnOk result (TakesPage (state self.old) no bytes.now (state self.new)) };

    /// Flushes: makes all written pages durable.
    ///
    /// # Errors
    /// Only `Flush`. What was unflushed is still unflushed. The contents that reads return are
    /// unchanged, whether it fails or not.
    ///
    /// A later flush may succeed if the device can still make these pages durable. A device over a
    /// file cannot know that, since the system may have dropped them: there each later flush fails
    /// too, until the file is opened again.
    fn flush(&mut self) -> Result<(), DeviceFault>
        ensures shape { SameShape (state self.old) (state self.new) }
        ensures faults { CountsFault Flush result (state self.old) (state self.new) }
        ensures calls { CountsCall Flush (state self.old) (state self.new) }
        ensures unfailing { IsTrue (state self.old).unfailing → IsOk result }
        ensures flushed { OnOk result ((state self.new).waiting ≡ false) }
        ensures failed { OnErr result ((state self.new).waiting ≡ (state self.old).waiting) }
        ensures contents { (state self.new).contents ≡ (state self.old).contents };

    /// Flushes if something is unflushed. Afterwards nothing is unflushed, or the flush failed and
    /// `failures` increased by one.
    fn settle(&mut self)
        ensures shape { SameShape (state self.old) (state self.new) }
        ensures settled { Settles (state self.old) (state self.new) }
        ensures calls { CountsSettle (state self.old) (state self.new) }
        ensures unfailing { IsTrue (state self.old).unfailing → (state self.new).waiting ≡ false }
        ensures contents { (state self.new).contents ≡ (state self.old).contents }
    {
        if self.waiting() {
            let _ = self.flush();
        }
    }
}

/// Drops a device that has nothing unflushed. The precondition prevents the silent loss of a page
/// that was written but not flushed.
pub fn let_go<D: PageDevice>(device: D)
    requires { (D.state device).waiting ≡ false }
{
    drop(device);
}
