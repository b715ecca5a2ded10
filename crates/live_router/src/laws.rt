//! Laws of a node within bounds.
ghost use Rattle.live_router.specs.BoundedLaws.{AnInputKeepsBounds, BoundedNodesSendProperMessages, LeftOverFactsKeepBounds, NoFactsAreBounded};

/// A node without facts is within bounds, where its period is not zero.
pub fn no_facts_are_bounded()
    ensures { NoFactsAreBounded }
{}

/// A fit input keeps a node within bounds. Its routes may change.
pub fn an_input_keeps_bounds()
    ensures { AnInputKeepsBounds }
{}

/// A fit fact that is left over keeps a node within bounds.
pub fn left_over_facts_keep_bounds()
    ensures { LeftOverFactsKeepBounds }
{}

/// What a node within bounds sends for a fit input is proper, whatever the clock.
pub fn bounded_nodes_send_proper_messages()
    ensures { BoundedNodesSendProperMessages }
{}
