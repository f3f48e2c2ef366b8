//! A visitor that lets a visit of all shards run its next errand.
ghost use Rattle.std.specs.Prelude.{◌≡◌};
ghost use Rattle.warm_shard_machine.specs.Entering.{IsNextAt};
ghost use Rattle.warm_shard_machine.specs.ShardSteps.{ShardStep};
ghost use Rattle.warm_shard_machine.specs.Visits.{EntersAs};
ghost use Rattle.warm_shard_machine.specs.declared.calls.ShardCall.TheVariants.{Enter};

use crate::calls::{ShardCall, ShardReply};
use crate::shard::{Place, Shard, is_place};
use crate::told_visit::ToldVisit;
use crate::visitors::visited;
use warm_devices::PageDevice;
use warm_turn::{Visit, Visited};

/// Lets a visit of all shards run its next errand, and gives it back. The visit goes in and out,
/// since contracts lose what is left behind a `&mut` in a visitor. A shard that is not at that place
/// isn't entered, and the visit is dropped.
#[derive(Drop)]
pub struct Entering {
    /// Where the errand is.
    pub place: Place,
    /// The visit, which must name the shard of that number next.
    pub visit: warm_visits::Visit,
}

impl<D: PageDevice + Send> Visit<Shard<D>> for Entering {
    ghost use Rattle.std.specs.Prelude.{◌≡◌};
    ghost use Rattle.warm_shard_machine.specs.Entering.{IsNextAt};
    ghost use Rattle.warm_shard_machine.specs.Visits.{EntersAs};
    ghost use Rattle.warm_shard_machine.specs.declared.calls.ShardCall.TheVariants.{Enter};

    type Output = Option<warm_visits::Visit>;

    ghost ready = { λ v. IsNextAt v.place.count v.place.number v.visit };

    ghost makes = { λ v output call reply. (call ≡ Enter v.place.count v.place.number v.visit)
        × EntersAs v.visit output reply };

    fn visit(
        self,
        shard: &mut Shard<D>,
    ) -> Visited<ShardCall, ShardReply, Option<warm_visits::Visit>> {
        let Entering { place, visit } = self;
        shard.enter(place, visit)
    }
}

impl<D: PageDevice> Shard<D> {
    // Lets a visit run its next errand, if it is at this shard.
    fn enter(
        &mut self,
        place: Place,
        mut visit: warm_visits::Visit,
    ) -> Visited<ShardCall, ShardReply, Option<warm_visits::Visit>>
        requires { IsNextAt place.count place.number visit }
        ensures call { result.made.call.value ≡ Enter place.count place.number visit }
        ensures reply { EntersAs visit result.output result.made.reply.value }
        ensures step { ShardStep self.old (Enter place.count place.number visit)
            result.made.reply.value self.new }
    {
        let call = ShardCall::Enter {
            count: place.count,
            number: place.number,
            visit: ToldVisit::of(&visit),
        };
        if !is_place(place, self.count, self.number) {
            return visited(call, ShardReply::Foreign, None);
        }
        visit.enter(&mut self.node);
        let reply = ShardReply::Entered(ToldVisit::of(&visit));
        visited(call, reply, Some(visit))
    }
}
