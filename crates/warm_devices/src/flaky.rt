//! A device that fails one chosen call, to test the layers above it.
ghost use Rattle.std.specs.Prelude.{◌≡◌, ◌-◌, ◌≤◌, ◌==◌, replicate};
ghost use Rattle.warm_devices.specs.declared.TheConstants.{MAX_PAGE_SIZE};

use crate::{CallsMade, DeviceFault, MAX_PAGE_SIZE, PageDevice};

/// The bytes of torn pages.
static TORN: [u8; MAX_PAGE_SIZE] = [0xEE; MAX_PAGE_SIZE];

/// A wrapper of a device that makes one of its reads, writes and flushes fail.
///
/// Its calls are counted from 1, and the n-th fails once; after that nothing is counted, and with
/// an n of 0 no call fails. A failed read or flush does not reach the inner device. A failed write
/// fills the page with bytes EE (hexadecimal). The calls that contracts count of the wrapper are
/// its own; each other one makes exactly this call of the inner device.
pub struct Flaky<D: PageDevice> {
    inner: D,
    /// The number of calls up to and including the one that fails; 0 once it has failed, or if none
    /// is to fail.
    calls_left: u64,
    failed: u64,
    calls: CallsMade,
    ghost fits: { (D.PageDevice.state inner).page_size ≤ MAX_PAGE_SIZE },
}

impl<D: PageDevice> Flaky<D> {
    ghost use Rattle.warm_devices.specs.FlakyParts.{inner_of, calls_left, flaky_state, may_fail};

    /// Forwards calls to `inner` and fails the `n`-th, or none if `n` is 0. The pages have at most
    /// `MAX_PAGE_SIZE` bytes.
    pub fn new(inner: D, n: u64) -> Flaky<D>
        requires { (D.PageDevice.state inner).page_size ≤ MAX_PAGE_SIZE }
        ensures inner { inner_of result ≡ inner }
        ensures calls { calls_left result ≡ n }
        ensures state { flaky_state result ≡ may_fail (D.PageDevice.state inner) }
    {
        Flaky {
            inner,
            calls_left: n,
            failed: 0,
            calls: CallsMade::new(),
        }
    }
}

/// Counts a call down, and says whether it is the one that fails.
fn is_due(calls_left: &mut u64) -> bool
    ensures due { result ≡ (calls_left.old == 1) }
    ensures left { calls_left.new ≡ calls_left.old - 1 }
{
    let due = *calls_left == 1;
    *calls_left = calls_left.saturating_sub(1);
    due
}

/// The bytes that a failed write leaves in a page of `len` bytes.
fn torn_page(len: usize) -> &'static [u8]
    requires { len ≤ MAX_PAGE_SIZE }
    ensures { result.now ≡ replicate len 0xEE }
{
    &TORN[..len]
}

impl<D: PageDevice> PageDevice for Flaky<D> {
    ghost use Rattle.std.specs.Prelude.{◌≡◌, ◌<◌, IsTrue, IsOk, OnOk, OnErr, length, true, false};
    ghost use Rattle.warm_devices.specs.Device.{DeviceState, SameShape, CountsFault, ChangesOnly};
    ghost use Rattle.warm_devices.specs.Device.{GivesPage, CountsCall, CountsSettle};
    ghost use Rattle.warm_devices.specs.Device.{TakesPage, SameWaiting, Settles, SettlesSurely};
    ghost use Rattle.warm_devices.specs.FlakyParts.{flaky_state, FailsWhenDue, StopsWhenDue};
    ghost use Rattle.warm_devices.specs.FlakyParts.{TearsWhenDue};
    ghost use Rattle.warm_devices.specs.FlakyParts.{SettlesUnlessDue};
    ghost use Rattle.warm_devices.specs.declared.fault.DeviceFault.TheVariants.{Read, Write, Flush};

    ghost state = { flaky_state };

    fn pages(&self) -> u64 {
        self.inner.pages()
    }

    fn page_size(&self) -> usize {
        self.inner.page_size()
    }

    fn waiting(&self) -> bool {
        self.inner.waiting()
    }

    fn failures(&self) -> u64 {
        self.inner.failures().saturating_add(self.failed)
    }

    fn read(&mut self, no: u64, into: &mut [u8]) -> Result<(), DeviceFault>
        requires known { no < (flaky_state self.old).pages }
        requires sized { length into.old ≡ (flaky_state self.old).page_size }
        ensures shape { SameShape (flaky_state self.old) (flaky_state self.new) }
        ensures faults { CountsFault Read result (flaky_state self.old) (flaky_state self.new) }
        ensures calls { CountsCall Read (flaky_state self.old) (flaky_state self.new) }
        ensures unfailing { IsTrue (flaky_state self.old).unfailing → IsOk result }
        ensures waiting { (flaky_state self.new).waiting ≡ (flaky_state self.old).waiting }
        ensures contents { (flaky_state self.new).contents ≡ (flaky_state self.old).contents }
        ensures bytes { OnOk result (GivesPage (flaky_state self.old) no into.new) }
        ensures chosen { FailsWhenDue Read result self.old self.new }
        ensures stopped { StopsWhenDue self.old self.new }
    {
        self.calls.note(DeviceFault::Read);
        if is_due(&mut self.calls_left) {
            self.failed = self.failed.saturating_add(1);
            return Err(DeviceFault::Read);
        }
        self.inner.read(no, into)
    }

    fn write(&mut self, no: u64, bytes: &[u8]) -> Result<(), DeviceFault>
        requires known { no < (flaky_state self.old).pages }
        requires sized { length bytes.now ≡ (flaky_state self.old).page_size }
        ensures shape { SameShape (flaky_state self.old) (flaky_state self.new) }
        ensures faults { CountsFault Write result (flaky_state self.old) (flaky_state self.new) }
        ensures calls { CountsCall Write (flaky_state self.old) (flaky_state self.new) }
        ensures unfailing { IsTrue (flaky_state self.old).unfailing → IsOk result }
        ensures waiting { (flaky_state self.new).waiting ≡ true }
        ensures others { ChangesOnly no (flaky_state self.old) (flaky_state self.new) }
        ensures bytes { OnOk result
            (TakesPage (flaky_state self.old) no bytes.now (flaky_state self.new)) }
        ensures chosen { FailsWhenDue Write result self.old self.new }
        ensures torn { TearsWhenDue no self.old self.new }
    {
        self.calls.note(DeviceFault::Write);
        if is_due(&mut self.calls_left) {
            // The inner device has counted a failure of its own write.
            if self.inner.write(no, torn_page(bytes.len())).is_ok() {
                self.failed = self.failed.saturating_add(1);
            }
            return Err(DeviceFault::Write);
        }
        self.inner.write(no, bytes)
    }

    fn flush(&mut self) -> Result<(), DeviceFault>
        ensures shape { SameShape (flaky_state self.old) (flaky_state self.new) }
        ensures faults { CountsFault Flush result (flaky_state self.old) (flaky_state self.new) }
        ensures calls { CountsCall Flush (flaky_state self.old) (flaky_state self.new) }
        ensures unfailing { IsTrue (flaky_state self.old).unfailing → IsOk result }
        ensures flushed { OnOk result ((flaky_state self.new).waiting ≡ false) }
        ensures failed { OnErr result (SameWaiting (flaky_state self.old) (flaky_state self.new)) }
        ensures contents { (flaky_state self.new).contents ≡ (flaky_state self.old).contents }
        ensures chosen { FailsWhenDue Flush result self.old self.new }
        ensures stopped { StopsWhenDue self.old self.new }
    {
        self.calls.note(DeviceFault::Flush);
        if is_due(&mut self.calls_left) {
            self.failed = self.failed.saturating_add(1);
            return Err(DeviceFault::Flush);
        }
        self.inner.flush()
    }

    /// A flush made here counts as one of the calls.
    fn settle(&mut self)
        ensures shape { SameShape (flaky_state self.old) (flaky_state self.new) }
        ensures settled { Settles (flaky_state self.old) (flaky_state self.new) }
        ensures calls { CountsSettle (flaky_state self.old) (flaky_state self.new) }
        ensures unfailing { SettlesSurely (flaky_state self.old) (flaky_state self.new) }
        ensures contents { (flaky_state self.new).contents ≡ (flaky_state self.old).contents }
        ensures counted { SettlesUnlessDue self.old self.new }
    {
        if self.waiting() {
            let _ = self.flush();
        }
    }
}

impl<D: PageDevice> Drop for Flaky<D> {
    fn drop(mut self) {
        self.settle();
        let Flaky {
            inner,
            calls_left: _,
            failed: _,
            calls,
        } = self;
        drop(inner);
        drop(calls);
    }
}
