//! Values that name a page.
ghost use Rattle.std.specs.Prelude.{◌≡◌};
ghost use Rattle.warm_stamps.specs.declared.PageId.{PageId};

use warm_history::Entry;
use warm_stamps::{PageId, Reference};

/// A value that names a page: a reference to it, an entry of a history, or the page itself.
pub trait NamesPage {
    /// The page that it names.
    ghost named: { Self → PageId };

    /// The page that it names.
    fn named(&self) -> PageId
        ensures { result ≡ named self.now };
}

impl NamesPage for PageId {
    ghost named = { λ page. page };

    fn named(&self) -> PageId {
        *self
    }
}

impl NamesPage for Reference {
    ghost named = { λ reference. reference.page };

    fn named(&self) -> PageId {
        self.page
    }
}

impl NamesPage for Entry {
    ghost named = { λ entry. entry.page };

    fn named(&self) -> PageId {
        self.page
    }
}
