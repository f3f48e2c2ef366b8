//! What is known of each page: the two latest stamps, held in ordered maps.
//!
//! [`PageHist`] is what is kept of a page: its latest stamp, or its two latest. [`BucketMaps`]
//! holds it for many pages: for each bucket an ordered map, from keys in page order to stamps in 24
//! bytes. Contracts see the maps as pairs of a key and a `PageHist`.
#![tactic(auto)]

mod bucket_map;
mod bucket_maps;
mod hist;
mod map_key;
mod near_join;
mod near_key;
mod packed;
mod page_map;
mod runs;
mod walk;

pub use bucket_map::{BucketPairs, Change, Lent, UndoNote, entry_of, first_entries};
pub use bucket_maps::{BucketMaps, EachEntry};
pub use hist::{Entry, PageHist, Two, join_hist};
pub use packed::Packed;
pub use runs::{bucket_of_run, take_run};
