//! Laws of bounds: lifetimes, countdowns, shapes, limits and capacity are kept by every step.
ghost use Rattle.laws_bounds.specs.BoundLaws.{FewerFactsSmallerBook, AStepKeepsANodeWithinBounds, LeftOverFactsAreWithinBounds};

/// Where each reservation is what is left of one, reservations keep their shape, tables their limits, and no entry of a book
/// grows.
#[tactic(auto, using(crate::proofs::Shrinking::fewer_facts_smaller_book))]
pub fn fewer_facts_smaller_book()
    ensures { FewerFactsSmallerBook }
{}

/// A step keeps a node within bounds, where what comes to it is fit: calls with sound flows, waits of at most half a period,
/// proper messages by interfaces that are there. Its routes may change.
pub fn a_step_keeps_a_node_within_bounds()
    ensures { AStepKeepsANodeWithinBounds }
{}

/// A left-over fact keeps a node within bounds, where it is fit: it lives no longer than one that was just refreshed, and has
/// the shape of one. Where the node refuses it nothing changes.
pub fn left_over_facts_are_within_bounds()
    ensures { LeftOverFactsAreWithinBounds }
{}
