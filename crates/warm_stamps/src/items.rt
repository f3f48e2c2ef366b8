//! Lists that calls, replies, answers and frames contain.
ghost use Rattle.std.specs.Prelude.{◌≡◌};

use crate::{PageId, Reference};
use std::marker::Model;

/// A list of items, in any order. Contracts see only the list, not the vector that holds it.
///
/// It is made from a vector and gives the vector back; both are allocation-free.
#[derive(Debug, Drop)]
pub struct Items<T> {
    items: Vec<T>,
}

/// A list of references.
pub type RefList = Items<Reference>;

/// A list of pages.
pub type PageList = Items<PageId>;

/// A list of bytes.
pub type ByteList = Items<u8>;

impl<T> Model for Items<T> {
    ghost use Rattle.std.specs.Prelude.{List};

    ghost Value = { List T };

    ghost view = { λ list. list.items.items };
}

impl<T> Items<T> {
    /// The list of these items. Allocation-free.
    pub fn of(items: Vec<T>) -> Items<T>
        ensures { result ≡ items.items }
    {
        Items { items }
    }

    /// The items. Allocation-free.
    pub fn as_slice(&self) -> &[T]
        ensures { result.now ≡ self.now }
    {
        &self.items
    }

    /// The items. Allocation-free.
    pub fn into_vec(self) -> Vec<T>
        ensures { result.items ≡ self }
    {
        self.items
    }
}
