//! The laws of merging, once over a style, and those of books and limits. The lemmas behind them stand in `specs/` and
//! `proofs/`, over the three kinds of style, for crates that have no style type at hand.
ghost use Rattle.style_rules.specs.Laws.{AtMostIsAnOrder, AtMostByNamesAndFlow, JoinIsTheLeastAbove, NamesAndFlowOfJoinAndMeet, CutByNames, CutIsBelowAndMonotone, CutOfACut};
ghost use Rattle.style_rules.specs.Laws.{ChargeAndMostAreMonotone, MergeIsTheLeastAboveItsNamedParts, MergeKeepsTheStyle, TowardIsAtMostTheMerge, TowardIsAtLeastTheMeet};
ghost use Rattle.style_rules.specs.Laws.{TowardIsTheJoinOfTheOpen, MergerHasRoom, PartsOfAStyle, MergeBelow, SumsBelow, WithinBelow, TestsTell};

use crate::style::Style;

/// The order of a style is reflexive, transitive and antisymmetric.
pub fn at_most_is_an_order<S: Style>()
    ensures { AtMostIsAnOrder S.at_most }
{}

/// A part is at most another exactly where its senders are among the other's, and its flow is at most the other's.
pub fn at_most_by_names_and_flow<S: Style>()
    ensures { AtMostByNamesAndFlow S.at_most }
{}

/// The join of two parts is the least that can stand for both.
pub fn join_is_the_least_above<S: Style>()
    ensures { JoinIsTheLeastAbove S.at_most S.joined }
{}

/// Join and meet have the senders of both parts and the join and meet of the flows; the meet is at most the join.
pub fn names_and_flow_of_join_and_meet<S: Style>()
    ensures { NamesAndFlowOfJoinAndMeet S.at_most S.joined S.met }
{}

/// A cut leaves nothing exactly where there is no common name, and else the common names with the part's flow.
#[tactic(auto, using(crate::proofs::Claims::cut_by_names))]
pub fn cut_by_names()
    ensures { CutByNames }
{}

/// A cut is at most the part, and more is left of a larger part.
pub fn cut_is_below_and_monotone<S: Style>()
    ensures { CutIsBelowAndMonotone S.at_most }
{}

/// One cut after another is a cut to the names in both; a cut keeps the unit.
pub fn cut_of_a_cut<S: Style>()
    ensures { CutOfACut S.kind_is }
{}

/// A larger part has no smaller charge and no smaller packet size.
pub fn charge_and_most_are_monotone<S: Style>()
    ensures { ChargeAndMostAreMonotone S.at_most }
{}

/// The merge of a list of parts has for each unit the least part above those of the list that name someone, and no other
/// table has.
pub fn merge_is_the_least_above_its_named_parts<S: Style>()
    ensures { MergeIsTheLeastAboveItsNamedParts S.kind_is S.at_most }
{}

/// Merged parts, and those that go toward a hop, are of the style where the list's are, each under its own unit.
pub fn merge_keeps_the_style<S: Style>()
    ensures { MergeKeepsTheStyle S.kind_is }
{}

/// What goes toward a hop has the units of the merge of all requests, is at most it, and is it where no request is
/// blockaded.
pub fn toward_is_at_most_the_merge<S: Style>()
    ensures { TowardIsAtMostTheMerge S.kind_is S.at_most }
{}

/// A flow that goes toward a hop is at least the meet of the flows of all requests of its unit.
pub fn toward_is_at_least_the_meet<S: Style>()
    ensures { TowardIsAtLeastTheMeet S.kind_is }
{}

/// Where a request of a unit is not blockaded, what goes toward the hop is the join of those that are not: its rate and
/// its packet size are the largest among these.
pub fn toward_is_the_join_of_the_open<S: Style>()
    ensures { TowardIsTheJoinOfTheOpen S.kind_is S.at_most }
{}

/// Where the requests added so far and a part name at most 16 senders, a merger has room for the part.
pub fn a_merger_has_room<S: Style>()
    ensures { MergerHasRoom S.kind_is }
{}

/// A wildcard part has names with port 0 alone, a fixed part one sender, a shared part at least one.
#[tactic(auto, using(crate::proofs::Claims::parts_of_a_style))]
pub fn parts_of_a_style()
    ensures { PartsOfAStyle }
{}

/// Fewer and smaller lines have a smaller book.
#[tactic(auto, using(crate::proofs::Claims::merge_below_laws))]
pub fn merge_below()
    ensures { MergeBelow }
{}

/// Fewer and smaller lines hold no more of a capacity.
#[tactic(auto, using(crate::proofs::Claims::sums_below_laws))]
pub fn sums_below()
    ensures { SumsBelow }
{}

/// Fewer and smaller lines are within the limits of a table where the others are.
#[tactic(auto, using(crate::proofs::Room::within_below))]
pub fn within_below()
    ensures { WithinBelow }
{}

/// The tests of order and limits hold exactly where the order and the limits do.
#[tactic(auto, using(crate::proofs::Claims::tests_tell))]
pub fn tests_tell()
    ensures { TestsTell }
{}
