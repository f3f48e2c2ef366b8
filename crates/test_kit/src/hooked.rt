//! A device in memory that calls back a test.
ghost use Rattle.std.specs.Prelude.{◌≡◌, IfOk, length};

use std::alloc::{AllocError, Global};
use warm_devices::{DeviceFault, MemDevice, PageDevice};

/// What a test observes of a [`HookedDevice`]; a hook may also delay a call. No contract says what
/// a hook does.
pub trait Hooks: Drop {
    /// A page is about to be read. The device forwards the call when this returns.
    fn before_read(&self);

    /// A page is about to be written, whether the write will fail or not.
    fn before_write(&self) {}

    /// The drop of the device has begun. `waiting` says whether something is unflushed; nothing was
    /// settled yet.
    fn at_drop(&self, waiting: bool);

    /// Called after [`Hooks::at_drop`], for each page from 0 on, with its bytes.
    fn page_at_drop(&self, no: u64, bytes: &[u8]);
}

/// A device in memory that forwards each call, and calls its hooks before a read or a write and
/// when its drop begins.
pub struct HookedDevice<H: Hooks> {
    inner: MemDevice,
    hooks: H,
    page: Vec<u8>,
    ghost fits: { length page.items ≡ inner.page_size },
}

impl<H: Hooks> HookedDevice<H> {
    ghost use Rattle.test_kit.specs.HookedParts.{hooked_state};

    /// Forwards calls to `inner`.
    ///
    /// # Errors
    /// If the allocation of a page buffer fails. Device and hooks are then dropped.
    pub fn new(alloc: Global, inner: MemDevice, hooks: H) -> Result<HookedDevice<H>, AllocError>
        ensures { IfOk result (λ device. hooked_state device ≡ inner) }
    {
        let page = Vec::from_elem(alloc, 0, inner.page_size())?;
        Ok(HookedDevice { inner, hooks, page })
    }
}

impl<H: Hooks> PageDevice for HookedDevice<H> {
    ghost use Rattle.test_kit.specs.HookedParts.{hooked_state};

    ghost state = { hooked_state };

    fn pages(&self) -> u64 {
        self.inner.pages()
    }

    fn page_size(&self) -> usize {
        self.inner.page_size()
    }

    fn waiting(&self) -> bool {
        self.inner.waiting()
    }

    fn failures(&self) -> u64 {
        self.inner.failures()
    }

    fn read(&mut self, no: u64, into: &mut [u8]) -> Result<(), DeviceFault> {
        self.hooks.before_read();
        self.inner.read(no, into)
    }

    fn write(&mut self, no: u64, bytes: &[u8]) -> Result<(), DeviceFault> {
        self.hooks.before_write();
        self.inner.write(no, bytes)
    }

    fn flush(&mut self) -> Result<(), DeviceFault> {
        self.inner.flush()
    }

    fn settle(&mut self) {
        self.inner.settle()
    }
}

// Passes to the hooks whether something is unflushed, and the bytes of each page.
fn show_all<H: Hooks>(inner: &mut MemDevice, hooks: &H, page: &mut Vec<u8>)
    requires { length page.old.items ≡ inner.old.page_size }
    ensures { length page.new.items ≡ inner.new.page_size }
{
    hooks.at_drop(inner.waiting());
    for no in 0..inner.pages() {
        if inner.read(no, page).is_ok() {
            hooks.page_at_drop(no, page);
        }
    }
}

impl<H: Hooks> Drop for HookedDevice<H> {
    fn drop(self) {
        let HookedDevice {
            mut inner,
            hooks,
            mut page,
        } = self;
        show_all(&mut inner, &hooks, &mut page);
        inner.settle();
        drop(inner);
        drop(hooks);
        drop(page);
    }
}
