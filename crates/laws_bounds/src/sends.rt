//! The number of sends.
ghost use Rattle.laws_bounds.specs.CountLaws.{FewAreSent};

/// What a router within bounds sends for a fit input is at most 37,889 messages, where it has at most 16 interfaces, and a Resv that
/// comes at most 16 units, as each that code has.
#[tactic(auto, using(crate::proofs::AllSends::few_are_sent))]
pub fn few_are_sent()
    ensures { FewAreSent }
{}
