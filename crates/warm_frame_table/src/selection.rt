//! Which frames a step is about.
ghost use Rattle.std.specs.Prelude.{◌≡◌};
ghost use Rattle.warm_frame_table.specs.Selection.{is_on, is_from, selects};

use warm_stamps::PageId;

/// Which frames a step is about, by the devices of their pages.
#[derive(Clone, Copy)]
pub enum Devices {
    /// All frames, with a page or without.
    All,
    /// The frames with pages of this device.
    One(u16),
    /// The frames with those pages of the device that have this number or a higher one.
    PagesFrom(u16, u64),
}

impl Devices {
    /// Whether a frame with this page is selected: `All` selects each frame, `One` those with a
    /// page of its device, and `PagesFrom` those of them with a page from its number on.
    pub fn selects(self, page: Option<PageId>) -> bool
        ensures { result ≡ selects self page }
    {
        match self {
            Devices::All => true,
            Devices::One(dev) => is_on(dev, page),
            Devices::PagesFrom(dev, first) => is_from(dev, first, page),
        }
    }
}

// Whether the page is of this device.
fn is_on(dev: u16, page: Option<PageId>) -> bool
    ensures { result ≡ is_on dev page }
{
    let Some(page) = page else {
        return false;
    };
    page.dev == dev
}

// Whether the page is of this device, and has this number or a higher one.
fn is_from(dev: u16, first: u64, page: Option<PageId>) -> bool
    ensures { result ≡ is_from dev first page }
{
    let Some(page) = page else {
        return false;
    };
    page.dev == dev && first <= page.no
}
