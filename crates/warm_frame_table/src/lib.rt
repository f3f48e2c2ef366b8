//! The frames of a buffer pool, without its devices: what is in each frame, the frame of each page,
//! and the ranks with which pages compete for eviction.
//!
//! [`Frames`] holds the page of each frame, its pin count, its dirty flag, its rank, its generation
//! and its bytes. It finds the frame of a page, a frame without a page, and the frame whose page is
//! evicted next, without a scan. A call names a frame by its number, from 0. [`Devices`] selects
//! frames by the devices of their pages.
//!
//! No device is called here, and nothing is written back: the pool of the crate above does that.
//!
//! Contracts see the frames as plain data, a `FramesState`, which is defined in
//! `specs/Frames.antt`. `FrameSteps.antt` beside it has what a call changes in one frame.
#![tactic(auto)]

mod competing;
mod frame;
mod frames;
mod page_table;
mod selection;
mod statuses;

pub use frames::Frames;
pub use selection::Devices;
