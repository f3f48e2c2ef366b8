//! Whether entries are in page order.
ghost use Rattle.std.specs.Prelude.{◌↔◌, IsTrue};
ghost use Rattle.warm_history.specs.Histories.{PagesAscend};

use std::cmp::Ordering;
use warm_maps::Entry;

/// Whether the pages of the entries rise, each above the one before it. Allocation-free.
pub fn is_sorted_by_page(entries: &[Entry]) -> bool
    ensures { IsTrue result ↔ PagesAscend entries.now }
{
    let Some((mut last, mut rest)) = entries.split_first() else {
        return true;
    };
    while let Some((next, later)) = rest.split_first() {
        let Ordering::Less = last.page.cmp(&next.page) else {
            return false;
        };
        last = next;
        rest = later;
    }
    true
}
