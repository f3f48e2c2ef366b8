//! The keys that slots have now. A contest may know older ones.
ghost use Rattle.std.specs.Prelude.{◌≡◌, ◌<◌, List, Option, length};
ghost use Rattle.warm_rank.specs.declared.RankKey.{RankKey};
ghost use Rattle.warm_rank.specs.Slots.{key_at};

use crate::RankKey;

/// What knows the current key of each slot of a contest, as [`Contest::settle`] asks for it.
///
/// [`Contest::settle`]: crate::Contest::settle
pub trait CurrentKeys {
    /// The current keys, in the order of the slots.
    ghost keys: { Self → List (Option RankKey) };

    /// The current key of a slot.
    fn key(&self, slot: usize) -> Option<RankKey>
        requires { slot < length (keys self.now) }
        ensures { result ≡ key_at (keys self.now) slot };
}
