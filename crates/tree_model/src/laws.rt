//! The laws of trees and chains. A valid network is one that keeps the limits, whose trees were grown hop by hop, and in
//! which no chain is closed.
ghost use Rattle.tree_model.specs.Networks.{Net};
ghost use Rattle.tree_model.specs.Ranks.{IsLoopFree};
ghost use Rattle.tree_model.specs.Valid.{IsValid};
ghost use Rattle.tree_model.specs.Laws.{InterfacesAreEnds, FollowersFollow, RankFallsAlongFollowers, LongestIsOfChains, OneHopIntoANode, OutwardIsByHops, TheRootHasNoInward};
ghost use Rattle.tree_model.specs.Laws.{DepthAndRankWithinLongest, OneSendingEndOnALink};

/// Each end is the interface of its node under the number that it has there, and each interface is an end of its node.
#[tactic(auto, using(crate::proofs::Ifaces::interfaces_are_ends))]
pub fn interfaces_are_ends()
    ensures { (net : Net) → InterfacesAreEnds net }
{}

/// The followers of a hop are the hops that follow it: some tree of the group has both, and the second goes out of the
/// node that the first goes into.
pub fn followers_follow()
    ensures { FollowersFollow }
{}

/// Where no chain is closed, a hop has a larger rank than each that follows it, and ranks are from 1 to the longest chain.
#[tactic(auto, using(crate::proofs::RankLaws::rank_falls))]
pub fn rank_falls_along_followers()
    ensures { (net : Net) → IsLoopFree net → RankFallsAlongFollowers net }
{}

/// Where no chain is closed, the largest rank is the length of the longest chain.
#[tactic(auto, using(crate::proofs::RankLaws::longest_is_of_chains))]
pub fn longest_is_of_chains()
    ensures { (net : Net) → IsLoopFree net → LongestIsOfChains net }
{}

/// A tree comes into a node over one hop at most, and the way in is that hop's end.
#[tactic(auto, using(crate::proofs::TreeLaws::one_hop_into_a_node))]
pub fn one_hop_into_a_node()
    ensures { (net : Net) → IsValid net → OneHopIntoANode net }
{}

/// The ways out of a node are the first ends of the hops that go out of it.
pub fn outward_is_by_hops()
    ensures { OutwardIsByHops }
{}

/// The node of the source has no way in, and every other node from which a hop goes has one.
#[tactic(auto, using(crate::proofs::TreeLaws::the_root_has_no_inward))]
pub fn the_root_has_no_inward()
    ensures { (net : Net) → IsValid net → TheRootHasNoInward net }
{}

/// The depth of a node goes up by one along each hop of a tree, and depth and rank together stay within the longest chain.
#[tactic(auto, using(crate::proofs::Depths::depth_and_rank_within_longest))]
pub fn depth_and_rank_within_longest()
    ensures { (net : Net) → IsValid net → DepthAndRankWithinLongest net }
{}

/// On a link one end alone sends for a tree: hops of the tree over the link all go out of it.
#[tactic(auto, using(crate::proofs::Links::one_sending_end_on_a_link))]
pub fn one_sending_end_on_a_link()
    ensures { (net : Net) → IsValid net → OneSendingEndOnALink net }
{}
