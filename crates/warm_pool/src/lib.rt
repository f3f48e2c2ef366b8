//! A buffer pool: frames that hold pages of devices, and the choice of the page that is evicted
//! when another is loaded.
//!
//! A page is loaded into a frame by [`Pool::pin`] or [`Pool::load`], and is evicted only for
//! another page, or when the pool is emptied or its device replaced. The page that is evicted is
//! the victim: of the unpinned resident pages, the one of the greatest backward 2-distance (O'Neil,
//! O'Neil, Weikum, "The LRU-K Page Replacement Algorithm For Database Disk Buffering", SIGMOD
//! 1993), as a history ranks them. A dirty page is written back to its device before it is evicted.
//! No call changes a byte of a page but [`Pool::write`], [`Pool::bytes_mut`] and
//! [`Pool::pin_zeroed`], of one page, [`Pool::replace`] and [`Pool::retire`], which replace all
//! pages of a device with those of another, and [`Pool::forget_pages`], which gives up what was not
//! written back. That is proved of each page of an honest device, which gives back what was written
//! to it, and otherwise of pages that are resident before and after a call. The pin count of a page
//! is called its fixes, and a pinned page is fixed.
//!
//! Contracts see a pool as plain data, a `PoolState`, and `view_of` gives what a caller sees of it.
//! They are defined in `specs/State.antt` and `specs/View.antt`. `Outcomes.antt` beside them has a
//! record for each outcome of a call: what a call did, and what a refusal left. Their fields are
//! facts of `Pinning.antt`, `Zeroing.antt`, `Filling.antt`, `PageBytes.antt`, `Refreshing.antt`,
//! `WritingBack.antt`, `WritingSome.antt`, `Retiring.antt` and `HandingBack.antt`. What a pool
//! counts ([`Pool::counts`], [`Pool::last_failure`]) is no part of it. `IsPool` is the invariant of
//! the type, which each call keeps. The devices come from the caller, and are of one type.
//! [`Pool::into_devices`] and [`Pool::replace`] give them back, flushed and with all that was
//! written.
#![tactic(auto)]

mod close;
mod counts;
mod device_list;
mod dirty;
mod fault;
mod filled;
mod flush;
mod forget;
pub mod laws;
mod lending;
mod named;
mod pool;
mod retire;
mod slot;
mod tally;
mod write_back;
mod write_some;
mod zeroed;

pub use close::CloseError;
pub use device_list::all_sized;
pub use dirty::DirtyFrame;
pub use fault::{NewPoolError, NewPoolFault, PoolFault, RetireError};
pub use named::NamesPage;
pub use pool::Pool;
pub use slot::{Placed, Slot};
pub use tally::{FailedCall, PoolCounts};

/// The maximum number of devices of a pool: a page names its device in 16 bits.
pub const MAX_DEVICES: usize = 65_536;
