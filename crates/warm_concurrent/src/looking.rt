//! Looking at a page and changing it where it lies, each in one turn of its shard.
ghost use Rattle.std.specs.Prelude.{◌≡◌, ◌<◌, length, IfErr, IfOk};
ghost use Rattle.std.specs.Fn.{FnOnceReturnsAt, FnOnceReturnsAtMut};
ghost use Rattle.warm_visits.specs.ShardNumbers.{shard_of};
ghost use Rattle.warm_concurrent.specs.Attached.{AreOf, AreTurns};
ghost use Rattle.warm_concurrent.specs.Clauses.{CallFails};
ghost use Rattle.warm_concurrent.specs.Looking.{ChangesPageAt, LooksAt};
ghost use Rattle.warm_shard_machine.specs.declared.calls.ShardCall.TheVariants.{Change, Look};

use crate::fault::SharedFault;
use crate::shared::{Attached, SharedShards, visit_or_back};
use std::sync::Wait;
use warm_devices::PageDevice;
use warm_shard_machine::{Changing, Looking, Place, Shard, Went};
use warm_stamps::PageId;
use warm_turn::{Pass, Turn};
use warm_visits::shard_of;

// Looks at a page in its shard, after a wait if other callers are there.
//
// It is one call, to which the page and the closure go in registers: it takes no room in the frame
// of a look that waits for nobody: all room there is cleared at each call.
#[inline(never)]
fn look_later<D: PageDevice + Send, R: Wait, T, F: FnOnce(&[u8]) -> T + Drop>(
    rt: &R,
    turns: &Vec<Turn<Shard<D>>>,
    passes: &mut Vec<Pass<Shard<D>>>,
    page: PageId,
    f: F,
) -> Result<T, SharedFault>
    requires turns { AreTurns turns.now.items }
    requires passes { AreOf turns.now.items passes.old.items }
    requires callable { F.IsAlwaysCallable f }
    ensures passes { AreOf turns.now.items passes.new.items }
    ensures looked { IfOk result (λ given.
        LooksAt passes.old.items (shard_of (length turns.now.items) page) page
        (λ bytes. FnOnceReturnsAt F.FnOnce f bytes given) passes.new.items) }
    ensures refused { IfErr result (λ why. CallFails passes.old.items
        (shard_of (length turns.now.items) page) (Look page) why passes.new.items) }
{
    let count = turns.len();
    let number = shard_of(count, page);
    let looking = Looking {
        page,
        place: Place { count, number },
        f,
    };
    match visit_or_back(rt, turns, passes, number, looking) {
        Ok(Went::Given(given)) => Ok(given),
        Ok(Went::Refused(why)) => Err(SharedFault::Node(why)),
        Ok(Went::Foreign) => unreachable!(),
        Err(_visitor) => Err(SharedFault::TurnsSpent),
    }
}

// Changes a page in its shard.
fn change_at<D: PageDevice + Send, R: Wait, T, F: FnOnce(&mut [u8]) -> T + Drop>(
    rt: &R,
    turns: &Vec<Turn<Shard<D>>>,
    passes: &mut Vec<Pass<Shard<D>>>,
    shard: usize,
    page: PageId,
    f: F,
) -> Result<T, SharedFault>
    requires turns { AreTurns turns.now.items }
    requires passes { AreOf turns.now.items passes.old.items }
    requires there { shard < length turns.now.items }
    requires own { shard_of (length turns.now.items) page ≡ shard }
    requires callable { F.IsAlwaysCallable f }
    ensures passes { AreOf turns.now.items passes.new.items }
    ensures changed { IfOk result (λ given. ChangesPageAt passes.old.items shard page
        (λ before after. FnOnceReturnsAtMut F.FnOnce f before given after)
        passes.new.items) }
    ensures refused { IfErr result (λ why. CallFails passes.old.items shard (Change page) why
        passes.new.items) }
{
    match visit_or_back(rt, turns, passes, shard, Changing { page, f }) {
        Ok(Went::Given(given)) => Ok(given),
        Ok(Went::Refused(why)) => Err(SharedFault::Node(why)),
        Ok(Went::Foreign) => unreachable!(),
        Err(_visitor) => Err(SharedFault::TurnsSpent),
    }
}

impl<D: PageDevice + Send> SharedShards<D> {
    /// Calls the closure with all bytes of a page where they lie, and returns what it returns: one
    /// turn of the page's shard, in which the call `Look` is answered. The page is pinned during
    /// the turn, and loaded first if it isn't resident. No pin is needed before, and none is left.
    /// Nothing is copied. Allocation-free. A miss holds up callers of this shard alone.
    ///
    /// The closure has the shard: other callers of the shard wait until it returns, and a closure
    /// that calls these shards waits forever.
    ///
    /// **A look is not a reference**: a caller that looks at a page also absorbs a reference to it.
    ///
    /// # Errors
    /// `Node`, with the fault and the effects of [`warm_gossip::Node::pin`] in the shard.
    /// `TurnsSpent`. The closure is dropped, and was not called.
    pub fn look<R: Wait, T, F: FnOnce(&[u8]) -> T + Drop>(
        &self,
        rt: &R,
        attached: &mut Attached<D>,
        page: PageId,
        f: F,
    ) -> Result<T, SharedFault>
        requires passes { AreOf self.now attached.old.passes }
        requires callable { F.IsAlwaysCallable f }
        ensures attached { AreOf self.now attached.new.passes }
        ensures looked { IfOk result (λ given.
            LooksAt attached.old.passes (shard_of (length self.now) page) page
            (λ bytes. FnOnceReturnsAt F.FnOnce f bytes given) attached.new.passes) }
        ensures refused { IfErr result (λ why. CallFails attached.old.passes
            (shard_of (length self.now) page) (Look page) why attached.new.passes) }
        ensures pins { attached.new.pins ≡ attached.old.pins }
    {
        let count = self.turns.len();
        let number = shard_of(count, page);
        let looking = Looking {
            page,
            place: Place { count, number },
            f,
        };
        match self.turns[number].try_visit(&mut attached.passes[number], looking) {
            Ok(Went::Given(given)) => Ok(given),
            Ok(Went::Refused(why)) => Err(SharedFault::Node(why)),
            Ok(Went::Foreign) => unreachable!(),
            Err(Looking { f, .. }) => { look_later(rt, &self.turns, &mut attached.passes, page, f) }
        }
    }

    /// Calls the closure with all bytes of a page where they lie, to be written to, and returns
    /// what it returns: one turn of the page's shard, in which the call `Change` is answered. The
    /// page is pinned during the turn, and loaded first if it isn't resident. What the closure
    /// leaves in the bytes is the page's content. The page becomes dirty, even if nothing is
    /// written: it is written back before it is evicted. Nothing is copied. Allocation-free.
    ///
    /// The closure has the shard: other callers of the shard wait until it returns, and a closure
    /// that calls these shards waits forever.
    ///
    /// **A change is not a reference**: a caller that changes a page also absorbs a reference to
    /// it.
    ///
    /// # Errors
    /// `Node`, with the fault and the effects of [`warm_gossip::Node::pin`] in the shard.
    /// `TurnsSpent`. The closure is dropped, and was not called.
    pub fn change<R: Wait, T, F: FnOnce(&mut [u8]) -> T + Drop>(
        &self,
        rt: &R,
        attached: &mut Attached<D>,
        page: PageId,
        f: F,
    ) -> Result<T, SharedFault>
        requires passes { AreOf self.now attached.old.passes }
        requires callable { F.IsAlwaysCallable f }
        ensures attached { AreOf self.now attached.new.passes }
        ensures changed { IfOk result (λ given.
            ChangesPageAt attached.old.passes (shard_of (length self.now) page) page
            (λ before after. FnOnceReturnsAtMut F.FnOnce f before given after)
            attached.new.passes) }
        ensures refused { IfErr result (λ why. CallFails attached.old.passes
            (shard_of (length self.now) page) (Change page) why attached.new.passes) }
        ensures pins { attached.new.pins ≡ attached.old.pins }
    {
        let shard = shard_of(self.turns.len(), page);
        let given = change_at(rt, &self.turns, &mut attached.passes, shard, page, f)?;
        Ok(given)
    }
}
