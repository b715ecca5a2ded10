//! Laws of policing a stream.
ghost use Rattle.load_policer.specs.StreamLaws.{BadLinesDoNotFollow, OneEnding, OneFault, WhatPassesOfAStreamKeepsTheBound};

/// Over the same bytes, policing that ends neither by a fault of a device nor out of memory comes to one ending and one text.
#[tactic(auto, using(crate::proofs::Coming::one_ending))]
pub fn one_ending()
    ensures { OneEnding }
{}

/// A line has one fault at most.
#[tactic(auto, using(crate::proofs::Leading::fault_one))]
pub fn one_fault()
    ensures { OneFault }
{}

/// A line that has a fault follows nothing.
#[tactic(auto, using(crate::proofs::Leading::fault_or_follows))]
pub fn bad_lines_do_not_follow()
    ensures { BadLinesDoNotFollow }
{}

/// Of each stream, what passes keeps the bound of its flow: in each stretch there are at most r times its time and b bytes (RFC 2211, 6).
#[tactic(auto, using(crate::proofs::StreamBound::stream_keeps_the_bound))]
pub fn what_passes_of_a_stream_keeps_the_bound()
    ensures { WhatPassesOfAStreamKeepsTheBound }
{}
