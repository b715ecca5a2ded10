//! Laws of what is sent for path state, and of refreshes (RFC 2205, 3.1.3, 3.1.5 and 3.7).
ghost use Rattle.laws_steps.specs.SpeakingLaws.{WhatAPathSentSays, WhyAPathTearIsSent, RefreshesAreMarked};

/// A Path that is sent has a sender that is known after the step, by an interface out of which its tree goes; it goes to the
/// group, from the node's own address of that interface.
#[tactic(auto, using(crate::proofs::Speaking::what_a_path_sent_says))]
pub fn what_a_path_sent_says()
    ensures { WhatAPathSentSays }
{}

/// A PathTear is sent for an offer that was made before and is made no more, by the interface of that offer.
pub fn why_a_path_tear_is_sent()
    ensures { WhyAPathTearIsSent }
{}

/// Of a session that came due all Paths and Resvs are sent, marked as refreshes; and nothing else is so marked.
#[tactic(auto, using(crate::proofs::Speaking::refreshes_are_marked))]
pub fn refreshes_are_marked()
    ensures { RefreshesAreMarked }
{}
