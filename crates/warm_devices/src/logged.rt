//! A device that asks a log before each write.
ghost use Rattle.std.specs.Prelude.{◌≡◌};

use crate::log::PageLog;
use crate::{CallsMade, DeviceFault, PageDevice};

/// A wrapper of a device that asks a log before each write, so that no page reaches the device
/// before the log entries that it needs are durable ("write-ahead").
///
/// If the log answers "not yet", the write fails: the device below isn't called, a failure is
/// counted, and the device is unflushed until the next flush. A pool then keeps the page resident
/// and dirty, and its call answers `WriteBack` or `Fault`. Each other call makes exactly this call
/// of the device below, and answers as that one does.
///
/// The calls that contracts count of the wrapper are its own, the writes that were held back
/// among them.
pub struct Logged<D: PageDevice, L: PageLog> {
    device: D,
    log: L,
    /// Whether a write was held back since the last flush.
    held_back: bool,
    /// The number of writes that were held back.
    refused: u64,
    calls: CallsMade,
}

impl<D: PageDevice, L: PageLog> Logged<D, L> {
    ghost use Rattle.warm_devices.specs.LoggedParts.{device_of, log_of, logged_state, may_refuse};

    /// Forwards calls to `device`, and asks `log` before each write.
    pub fn new(device: D, log: L) -> Logged<D, L>
        ensures device { device_of result ≡ device }
        ensures log { log_of result ≡ log }
        ensures state { logged_state D.PageDevice.state result
            ≡ may_refuse (D.PageDevice.state device) }
    {
        Logged {
            device,
            log,
            held_back: false,
            refused: 0,
            calls: CallsMade::new(),
        }
    }
}

impl<D: PageDevice, L: PageLog> PageDevice for Logged<D, L> {
    ghost use Rattle.std.specs.Prelude.{◌≡◌, ◌<◌, IsTrue, IsOk, OnOk, OnErr, length, true, false};
    ghost use Rattle.warm_devices.specs.Device.{DeviceState, SameShape, CountsFault, ChangesOnly};
    ghost use Rattle.warm_devices.specs.Device.{GivesPage, CountsCall, CountsSettle};
    ghost use Rattle.warm_devices.specs.Device.{TakesPage, SameWaiting, Settles, SettlesSurely};
    ghost use Rattle.warm_devices.specs.LoggedParts.{logged_state, AsksFirst, LeavesLog};
    ghost use Rattle.warm_devices.specs.LoggedParts.{PassesOn, PassesSettleOn};
    ghost use Rattle.warm_devices.specs.declared.fault.DeviceFault.TheVariants.{Read, Write, Flush};

    ghost state = { logged_state D.PageDevice.state };

    fn pages(&self) -> u64 {
        self.device.pages()
    }

    fn page_size(&self) -> usize {
        self.device.page_size()
    }

    fn waiting(&self) -> bool {
        self.held_back || self.device.waiting()
    }

    fn failures(&self) -> u64 {
        self.device.failures().saturating_add(self.refused)
    }

    fn read(&mut self, no: u64, into: &mut [u8]) -> Result<(), DeviceFault>
        requires known { no < (logged_state D.PageDevice.state self.old).pages }
        requires sized { length into.old ≡ (logged_state D.PageDevice.state self.old).page_size }
        ensures shape { SameShape (logged_state D.PageDevice.state self.old)
            (logged_state D.PageDevice.state self.new) }
        ensures faults { CountsFault Read result (logged_state D.PageDevice.state self.old)
            (logged_state D.PageDevice.state self.new) }
        ensures calls { CountsCall Read (logged_state D.PageDevice.state self.old)
            (logged_state D.PageDevice.state self.new) }
        ensures unfailing { IsTrue (logged_state D.PageDevice.state self.old).unfailing
            → IsOk result }
        ensures waiting { SameWaiting (logged_state D.PageDevice.state self.old)
            (logged_state D.PageDevice.state self.new) }
        ensures contents { (logged_state D.PageDevice.state self.new).contents
            ≡ (logged_state D.PageDevice.state self.old).contents }
        ensures bytes { OnOk result
            (GivesPage (logged_state D.PageDevice.state self.old) no into.new) }
        ensures log { LeavesLog self.old self.new }
        ensures passed_on { PassesOn D.PageDevice.state Read result self.old self.new }
    {
        self.calls.note(DeviceFault::Read);
        self.device.read(no, into)
    }

    /// Asks the log first.
    fn write(&mut self, no: u64, bytes: &[u8]) -> Result<(), DeviceFault>
        requires known { no < (logged_state D.PageDevice.state self.old).pages }
        requires sized { length bytes.now ≡ (logged_state D.PageDevice.state self.old).page_size }
        ensures shape { SameShape (logged_state D.PageDevice.state self.old)
            (logged_state D.PageDevice.state self.new) }
        ensures faults { CountsFault Write result (logged_state D.PageDevice.state self.old)
            (logged_state D.PageDevice.state self.new) }
        ensures calls { CountsCall Write (logged_state D.PageDevice.state self.old)
            (logged_state D.PageDevice.state self.new) }
        ensures unfailing { IsTrue (logged_state D.PageDevice.state self.old).unfailing
            → IsOk result }
        ensures waiting { (logged_state D.PageDevice.state self.new).waiting ≡ true }
        ensures others { ChangesOnly no (logged_state D.PageDevice.state self.old)
            (logged_state D.PageDevice.state self.new) }
        ensures bytes { OnOk result (TakesPage (logged_state D.PageDevice.state self.old) no
            bytes.now (logged_state D.PageDevice.state self.new)) }
        ensures asked { AsksFirst D.PageDevice.state L.PageLog.answers no bytes.now result
            self.old self.new }
    {
        self.calls.note(DeviceFault::Write);
        if self.log.before_write(no, bytes).is_err() {
            self.held_back = true;
            self.refused = self.refused.saturating_add(1);
            return Err(DeviceFault::Write);
        }
        self.device.write(no, bytes)
    }

    fn flush(&mut self) -> Result<(), DeviceFault>
        ensures shape { SameShape (logged_state D.PageDevice.state self.old)
            (logged_state D.PageDevice.state self.new) }
        ensures faults { CountsFault Flush result (logged_state D.PageDevice.state self.old)
            (logged_state D.PageDevice.state self.new) }
        ensures calls { CountsCall Flush (logged_state D.PageDevice.state self.old)
            (logged_state D.PageDevice.state self.new) }
        ensures unfailing { IsTrue (logged_state D.PageDevice.state self.old).unfailing
            → IsOk result }
        ensures flushed { OnOk result
            ((logged_state D.PageDevice.state self.new).waiting ≡ false) }
        ensures failed { OnErr result (SameWaiting (logged_state D.PageDevice.state self.old)
            (logged_state D.PageDevice.state self.new)) }
        ensures contents { (logged_state D.PageDevice.state self.new).contents
            ≡ (logged_state D.PageDevice.state self.old).contents }
        ensures log { LeavesLog self.old self.new }
        ensures passed_on { PassesOn D.PageDevice.state Flush result self.old self.new }
    {
        self.calls.note(DeviceFault::Flush);
        self.device.flush()?;
        self.held_back = false;
        Ok(())
    }

    fn settle(&mut self)
        ensures shape { SameShape (logged_state D.PageDevice.state self.old)
            (logged_state D.PageDevice.state self.new) }
        ensures settled { Settles (logged_state D.PageDevice.state self.old)
            (logged_state D.PageDevice.state self.new) }
        ensures calls { CountsSettle (logged_state D.PageDevice.state self.old)
            (logged_state D.PageDevice.state self.new) }
        ensures unfailing { SettlesSurely (logged_state D.PageDevice.state self.old)
            (logged_state D.PageDevice.state self.new) }
        ensures contents { (logged_state D.PageDevice.state self.new).contents
            ≡ (logged_state D.PageDevice.state self.old).contents }
        ensures log { LeavesLog self.old self.new }
        ensures passed_on { PassesSettleOn D.PageDevice.state self.old self.new }
    {
        if self.waiting() {
            let _ = self.flush();
        }
    }
}

impl<D: PageDevice, L: PageLog> Drop for Logged<D, L> {
    fn drop(mut self) {
        self.settle();
        let Logged {
            device,
            log,
            held_back: _,
            refused: _,
            calls,
        } = self;
        drop(device);
        drop(log);
        drop(calls);
    }
}
