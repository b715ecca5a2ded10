//! The laws of the lattice of flows, and of blockade by its order. The lemmas stand in `proofs/`.
ghost use Rattle.flow_merge.specs.Laws.{AtMostIsAnOrder, JoinIsASemilattice, MeetIsASemilattice, JoinAndMeetAbsorb, AtMostIsByJoinAndMeet, JoinIsTheLeastAbove, MeetIsTheGreatestBelow};
ghost use Rattle.flow_merge.specs.Laws.{JoinAndMeetAreSound, TestsTell, BlockadeFollowsTheOrder};

/// The order is reflexive, transitive and antisymmetric.
#[tactic(auto, using(crate::proofs::Lattice::order_laws))]
pub fn at_most_is_an_order()
    ensures { AtMostIsAnOrder }
{}

/// The join is commutative, associative, idempotent and monotone.
#[tactic(auto, using(crate::proofs::Lattice::join_laws))]
pub fn join_is_a_semilattice()
    ensures { JoinIsASemilattice }
{}

/// The meet is commutative, associative, idempotent and monotone.
#[tactic(auto, using(crate::proofs::Lattice::meet_laws))]
pub fn meet_is_a_semilattice()
    ensures { MeetIsASemilattice }
{}

/// Each of join and meet absorbs the other.
#[tactic(auto, using(crate::proofs::Lattice::absorb_laws))]
pub fn join_and_meet_absorb()
    ensures { JoinAndMeetAbsorb }
{}

/// A flow is at most another exactly where their join is the other, and exactly where their meet is the flow.
#[tactic(auto, using(crate::proofs::Lattice::by_join_and_meet))]
pub fn at_most_is_by_join_and_meet()
    ensures { AtMostIsByJoinAndMeet }
{}

/// The join of two flows is the least that can stand for both.
#[tactic(auto, using(crate::proofs::Lattice::least_above))]
pub fn join_is_the_least_above()
    ensures { JoinIsTheLeastAbove }
{}

/// The meet of two flows is the greatest for which both can stand, and at most their join.
#[tactic(auto, using(crate::proofs::Lattice::greatest_below))]
pub fn meet_is_the_greatest_below()
    ensures { MeetIsTheGreatestBelow }
{}

/// Join and meet of sound flows are sound.
#[tactic(auto, using(crate::proofs::Lattice::sound_laws))]
pub fn join_and_meet_are_sound()
    ensures { JoinAndMeetAreSound }
{}

/// The tests of order and of blockade hold exactly where the order and the blockade do.
#[tactic(auto, using(crate::proofs::Told::tests_tell))]
pub fn tests_tell()
    ensures { TestsTell }
{}

/// A refused flow that blockades a request blockades each larger request, and so does each smaller refused flow; a flow
/// that is refused for its rate or its packet size blockades itself.
#[tactic(auto, using(crate::proofs::Told::blockade_laws))]
pub fn blockade_follows_the_order()
    ensures { BlockadeFollowsTheOrder }
{}
