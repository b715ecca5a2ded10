//! The bounds of a router.
ghost use Rattle.router_rules.specs.Bounds.{NoFactsAreWithinBounds};

/// A router without facts is within bounds.
#[tactic(auto, using(crate::proofs::Bounding::no_facts_are_within_bounds))]
pub fn no_facts_are_within_bounds()
    ensures { NoFactsAreWithinBounds }
{}
