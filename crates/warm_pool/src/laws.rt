//! Laws of pools. Each is a function without a body, whose contract is the law.
ghost use Rattle.warm_pool.specs.Laws.{EmptyPoolIsRanked, LeavingKeepsPlaces, LentPageIsWritten};
ghost use Rattle.warm_pool.specs.Laws.{MorePinsKeepFrame, MorePinsKeepVictim, PinAddsPins};
ghost use Rattle.warm_pool.specs.Laws.{PinsGoAlike, PinsKeepPlaces, SameFramesKeepPlaces};
ghost use Rattle.warm_pool.specs.Laws.{UnpinsKeepPlaces};

/// A pool without a page is ranked by every history.
pub fn empty_pool_is_ranked()
    ensures { EmptyPoolIsRanked }
{}

/// What is left in the bytes of a page that [`crate::Pool::bytes_mut`] lent was written to the
/// page: each history still ranks the pool, the page is dirty, and nothing else has changed.
pub fn lent_page_is_written()
    ensures { LentPageIsWritten }
{}

/// A pin of a resident page adds pins: each frame keeps its page, and has at least as many pins.
pub fn pin_adds_pins()
    ensures { PinAddsPins }
{}

/// Pins that are added to other pages leave the victim as it is, and the frame into which the next
/// page is loaded: over any references, the page that was the victim, and still has no pin, is the
/// victim, and no other page is.
pub fn more_pins_keep_victim()
    ensures victim { MorePinsKeepVictim }
    ensures frame { MorePinsKeepFrame }
{}

/// A page stays in its frame while it is resident, whatever is called: if it is resident before and
/// after a call, it is in the same frame, of the same generation. So its bytes stay where they are.
pub fn resident_pages_stay()
    ensures pins { PinsKeepPlaces }
    ensures unpins { UnpinsKeepPlaces }
    ensures same { SameFramesKeepPlaces }
    ensures leaving { LeavingKeepsPlaces }
{}

/// Two pins of a page, of the same pool, go alike, even if one is a [`crate::Pool::pin`] and the
/// other a [`crate::Pool::pin_filled`]: they give the same slot, each frame has the same page,
/// generation and pin count afterwards, and each page of an honest device the same bytes.
pub fn pins_go_alike()
    ensures { PinsGoAlike }
{}
