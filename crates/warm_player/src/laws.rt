//! Laws on definitions, each a function that does nothing and whose contract is the law.
ghost use Rattle.warm_player.specs.Laws.{PlayIsRun};

/// A schedule prints the answers of a run of the world by its events, one for each line that is an
/// event; a `put` for whose bytes the allocation failed is not one of them. Each page that `victim`
/// prints, or that is evicted for another, is an unpinned resident page of greatest backward
/// 2-distance over all references that reached the replica, and replicas that keep the same
/// references agree. So the main theorem of `World::run` holds for every schedule that is played.
pub fn play_is_run()
    ensures { PlayIsRun }
{}
