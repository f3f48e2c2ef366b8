//! A device that counts its calls.
ghost use Rattle.std.specs.Prelude.{◌≡◌};
ghost use Rattle.warm_devices.specs.Counting.{CountsSince};

use crate::{DeviceFault, PageDevice};
use std::snapshot::Snapshot;

/// How many reads, writes and flushes of a device were made, whether they failed or not. Each
/// saturates at `u64::MAX`.
#[derive(Clone, Copy, PartialEq, Eq, Debug)]
pub struct DeviceCounts {
    /// The reads of a page.
    pub reads: u64,
    /// The writes of a page.
    pub writes: u64,
    /// The flushes.
    pub flushes: u64,
}

/// A wrapper of a device that counts the calls made of it, and forwards each once. What contracts
/// see of the device is that of the device within, its calls too.
pub struct Counted<D: PageDevice> {
    inner: D,
    calls: DeviceCounts,
    // The inner device as it was when counting began.
    before: Snapshot<D>,
    ghost tied: { CountsSince (D.PageDevice.state before.value).calls
        (D.PageDevice.state inner).calls calls },
}

impl<D: PageDevice> Counted<D> {
    ghost use Rattle.warm_devices.specs.CountedParts.{inner_of, calls_of, before_of, none_counted};

    /// Forwards calls to `inner`, of which none is counted yet.
    pub fn new(inner: D) -> Counted<D>
        ensures inner { inner_of result ≡ inner }
        ensures none { calls_of result ≡ none_counted }
        ensures before { before_of result ≡ (D.PageDevice.state inner).calls }
    {
        let before = Snapshot::of(&inner);
        Counted {
            inner,
            calls: DeviceCounts {
                reads: 0,
                writes: 0,
                flushes: 0,
            },
            before,
        }
    }

    /// How many reads, writes and flushes of the device within were made since [`Counted::new`].
    /// How many calls failed is [`PageDevice::failures`].
    pub fn counts(&self) -> DeviceCounts
        ensures returned { result ≡ calls_of self.now }
        ensures since { CountsSince (before_of self.now)
            (D.PageDevice.state (inner_of self.now)).calls result }
    {
        self.calls
    }
}

impl<D: PageDevice> PageDevice for Counted<D> {
    ghost use Rattle.std.specs.Prelude.{◌≡◌, ◌<◌, IsTrue, IsOk, OnOk, OnErr, length, true, false};
    ghost use Rattle.warm_devices.specs.Device.{DeviceState, SameShape, CountsFault, ChangesOnly};
    ghost use Rattle.warm_devices.specs.Device.{GivesPage, CountsCall, CountsSettle};
    ghost use Rattle.warm_devices.specs.Device.{TakesPage, SameWaiting, Settles, SettlesSurely};
    ghost use Rattle.warm_devices.specs.CountedParts.{inner_of, calls_of, before_of};
    ghost use Rattle.warm_devices.specs.CountedParts.{one_read, one_write, one_flush};
    ghost use Rattle.warm_devices.specs.CountedParts.{flush_if_waiting};
    ghost use Rattle.warm_devices.specs.declared.fault.DeviceFault.TheVariants.{Read, Write, Flush};

    ghost state = { λ c. D.PageDevice.state (inner_of c) };

    fn pages(&self) -> u64 {
        self.inner.pages()
    }

    fn page_size(&self) -> usize {
        self.inner.page_size()
    }

    fn waiting(&self) -> bool {
        self.inner.waiting()
    }

    fn failures(&self) -> u64 {
        self.inner.failures()
    }

    fn read(&mut self, no: u64, into: &mut [u8]) -> Result<(), DeviceFault>
        requires known { no < (D.PageDevice.state (inner_of self.old)).pages }
        requires sized { length into.old ≡ (D.PageDevice.state (inner_of self.old)).page_size }
        ensures shape { SameShape (D.PageDevice.state (inner_of self.old))
            (D.PageDevice.state (inner_of self.new)) }
        ensures faults { CountsFault Read result (D.PageDevice.state (inner_of self.old))
            (D.PageDevice.state (inner_of self.new)) }
        ensures calls { CountsCall Read (D.PageDevice.state (inner_of self.old))
            (D.PageDevice.state (inner_of self.new)) }
        ensures unfailing { IsTrue (D.PageDevice.state (inner_of self.old)).unfailing
            → IsOk result }
        ensures waiting { SameWaiting (D.PageDevice.state (inner_of self.old))
            (D.PageDevice.state (inner_of self.new)) }
        ensures contents { (D.PageDevice.state (inner_of self.new)).contents
            ≡ (D.PageDevice.state (inner_of self.old)).contents }
        ensures bytes { OnOk result
            (GivesPage (D.PageDevice.state (inner_of self.old)) no into.new) }
        ensures counted { calls_of self.new ≡ one_read (calls_of self.old) }
        ensures kept { before_of self.new ≡ before_of self.old }
    {
        self.calls.reads = self.calls.reads.saturating_add(1);
        self.inner.read(no, into)
    }

    fn write(&mut self, no: u64, bytes: &[u8]) -> Result<(), DeviceFault>
        requires known { no < (D.PageDevice.state (inner_of self.old)).pages }
        requires sized { length bytes.now ≡ (D.PageDevice.state (inner_of self.old)).page_size }
        ensures shape { SameShape (D.PageDevice.state (inner_of self.old))
            (D.PageDevice.state (inner_of self.new)) }
        ensures faults { CountsFault Write result (D.PageDevice.state (inner_of self.old))
            (D.PageDevice.state (inner_of self.new)) }
        ensures calls { CountsCall Write (D.PageDevice.state (inner_of self.old))
            (D.PageDevice.state (inner_of self.new)) }
        ensures unfailing { IsTrue (D.PageDevice.state (inner_of self.old)).unfailing
            → IsOk result }
        ensures waiting { (D.PageDevice.state (inner_of self.new)).waiting ≡ true }
        ensures others { ChangesOnly no (D.PageDevice.state (inner_of self.old))
            (D.PageDevice.state (inner_of self.new)) }
        ensures bytes { OnOk result (TakesPage (D.PageDevice.state (inner_of self.old)) no
            bytes.now (D.PageDevice.state (inner_of self.new))) }
        ensures counted { calls_of self.new ≡ one_write (calls_of self.old) }
        ensures kept { before_of self.new ≡ before_of self.old }
    {
        self.calls.writes = self.calls.writes.saturating_add(1);
        self.inner.write(no, bytes)
    }

    fn flush(&mut self) -> Result<(), DeviceFault>
        ensures shape { SameShape (D.PageDevice.state (inner_of self.old))
            (D.PageDevice.state (inner_of self.new)) }
        ensures faults { CountsFault Flush result (D.PageDevice.state (inner_of self.old))
            (D.PageDevice.state (inner_of self.new)) }
        ensures calls { CountsCall Flush (D.PageDevice.state (inner_of self.old))
            (D.PageDevice.state (inner_of self.new)) }
        ensures unfailing { IsTrue (D.PageDevice.state (inner_of self.old)).unfailing
            → IsOk result }
        ensures flushed { OnOk result
            ((D.PageDevice.state (inner_of self.new)).waiting ≡ false) }
        ensures failed { OnErr result (SameWaiting (D.PageDevice.state (inner_of self.old))
            (D.PageDevice.state (inner_of self.new))) }
        ensures contents { (D.PageDevice.state (inner_of self.new)).contents
            ≡ (D.PageDevice.state (inner_of self.old)).contents }
        ensures counted { calls_of self.new ≡ one_flush (calls_of self.old) }
        ensures kept { before_of self.new ≡ before_of self.old }
    {
        self.calls.flushes = self.calls.flushes.saturating_add(1);
        self.inner.flush()
    }

    /// The flush that is made here is counted.
    fn settle(&mut self)
        ensures shape { SameShape (D.PageDevice.state (inner_of self.old))
            (D.PageDevice.state (inner_of self.new)) }
        ensures settled { Settles (D.PageDevice.state (inner_of self.old))
            (D.PageDevice.state (inner_of self.new)) }
        ensures calls { CountsSettle (D.PageDevice.state (inner_of self.old))
            (D.PageDevice.state (inner_of self.new)) }
        ensures unfailing { SettlesSurely (D.PageDevice.state (inner_of self.old))
            (D.PageDevice.state (inner_of self.new)) }
        ensures contents { (D.PageDevice.state (inner_of self.new)).contents
            ≡ (D.PageDevice.state (inner_of self.old)).contents }
        ensures counted { calls_of self.new
            ≡ flush_if_waiting (D.PageDevice.state (inner_of self.old)) (calls_of self.old) }
        ensures kept { before_of self.new ≡ before_of self.old }
    {
        if self.waiting() {
            let _ = self.flush();
        }
    }
}

impl<D: PageDevice> Drop for Counted<D> {
    fn drop(mut self) {
        self.settle();
        let Counted {
            inner,
            calls: _,
            before,
        } = self;
        drop(inner);
        drop(before);
    }
}
