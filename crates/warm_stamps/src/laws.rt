//! The laws of the orders of stamps, pages and references.
//!
//! Each function does nothing. Its contract is a theorem, which the crates above cite and a reader
//! can look up: `specs/Stamps.antt` defines the orders, `specs/Laws.antt` what a total order is.
ghost use Rattle.std.specs.Prelude.{◌≡◌};
ghost use Rattle.warm_stamps.specs.declared.Stamp.{Stamp};
ghost use Rattle.warm_stamps.specs.declared.PageId.{PageId};
ghost use Rattle.warm_stamps.specs.declared.Reference.{Reference};
ghost use Rattle.warm_stamps.specs.Stamps.{stamp_cmp, page_cmp, reference_cmp};
ghost use Rattle.warm_stamps.specs.Laws.{StampOrderIsTotal, PageOrderIsTotal};
ghost use Rattle.warm_stamps.specs.Laws.{ReferenceOrderIsTotal};

use crate::{PageId, Reference, Stamp};

/// The order of `Stamp` in Rust is by time, then replica.
pub fn ord_is_stamp_cmp()
    ensures { (s t : Stamp) → ⟦<Stamp as Ord>⟧.cmp s t ≡ stamp_cmp s t }
{}

/// The order of `PageId` in Rust is by device, then number.
pub fn ord_is_page_cmp()
    ensures { (p q : PageId) → ⟦<PageId as Ord>⟧.cmp p q ≡ page_cmp p q }
{}

/// The order of `Reference` in Rust is by page, then stamp.
pub fn ord_is_reference_cmp()
    ensures { (r s : Reference) → ⟦<Reference as Ord>⟧.cmp r s ≡ reference_cmp r s }
{}

/// The order of stamps is total, and only equal stamps tie.
pub fn stamp_order_is_total()
    ensures { StampOrderIsTotal }
{}

/// The order of pages is total, and only equal pages tie.
pub fn page_order_is_total()
    ensures { PageOrderIsTotal }
{}

/// The order of references is total, and only equal references tie.
pub fn reference_order_is_total()
    ensures { ReferenceOrderIsTotal }
{}
