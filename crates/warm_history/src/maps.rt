//! How a history uses its maps: it merges their buckets in page order, and takes references in, all
//! or none. No public contract names what is here, and no crate above imports it.

pub(crate) mod merge_iter;
pub(crate) mod take_in;
