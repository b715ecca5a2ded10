//! The law of countdowns (RFC 2205, 3.7).
ghost use Rattle.laws_steps.specs.CountdownLaws.{CountdownsMoveByTheirRule};

/// A countdown stands where a sender is known, starts at a period, and stays until a wait reaches it; then its session is
/// due, and it moves by half a period and up to one more.
#[tactic(auto, using(crate::proofs::Counting::countdowns_move_by_their_rule))]
pub fn countdowns_move_by_their_rule()
    ensures { CountdownsMoveByTheirRule }
{}
