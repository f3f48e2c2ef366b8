//! Comparison of the answers of worlds.
use test_kit::are_equal;
use warm_gossip::NodeFault;
use warm_world::{Answer, WorldFault};

// Whether an event was refused because of an allocation failure.
pub(crate) fn is_memory(answer: &Answer) -> bool {
    matches!(answer, Answer::Refused(WorldFault::Node(NodeFault::Memory)))
}

// Whether it was refused for another reason.
pub(crate) fn is_misnamed(answer: &Answer) -> bool {
    matches!(answer, Answer::Refused(_)) && !is_memory(answer)
}

// Whether two answers are equal.
pub(crate) fn is_same(left: &Answer, right: &Answer) -> bool {
    match (left, right) {
        (Answer::Done, Answer::Done) => true,
        (Answer::Shown(left), Answer::Shown(right)) => {
            are_equal(left.as_history(), right.as_history())
        }
        (Answer::FrameNo(left), Answer::FrameNo(right)) => left == right,
        (
            Answer::Took { count, first },
            Answer::Took {
                count: others,
                first: other,
            },
        ) => count == others && first == other,
        (Answer::Pinned(left), Answer::Pinned(right)) => left == right,
        (Answer::Bytes(left), Answer::Bytes(right)) => left.as_slice() == right.as_slice(),
        (Answer::Page(left), Answer::Page(right)) => left == right,
        (Answer::Pages(left), Answer::Pages(right)) => left.as_slice() == right.as_slice(),
        (Answer::Loaded(left), Answer::Loaded(right)) => left == right,
        (Answer::Kept(left), Answer::Kept(right)) => left == right,
        (Answer::Refused(left), Answer::Refused(right)) => left == right,
        _ => false,
    }
}
