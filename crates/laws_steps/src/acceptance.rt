//! The law of acceptance (RFC 2205, 1 and 3.5: admission control).
ghost use Rattle.laws_steps.specs.AcceptingLaws.{WhatIsAccepted};

/// A unit that lies under lines which the node can hold, beside reservations that do, has room and is not refused; and a Resv
/// of such units is taken whole.
#[tactic(auto, using(crate::proofs::Admitting::what_is_accepted))]
pub fn what_is_accepted()
    ensures { WhatIsAccepted }
{}
