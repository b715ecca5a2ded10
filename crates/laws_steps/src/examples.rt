//! Facts and inputs that meet the premises of the laws: no law speaks of nothing.
ghost use Rattle.laws_steps.specs.ReservationExamples.{ReservationLawsHaveExamples, BlameLawsHaveExamples};
ghost use Rattle.laws_steps.specs.Examples.{PathLawsHaveExamples, FrameLawsHaveExamples, CountdownLawHasExamples, SendLawsHaveExamples, BoundLawsHaveExamples, AcceptanceHasExamples};
ghost use Rattle.laws_steps.specs.Examples.{ErrorLawsHaveExamples};

/// A Path that is learnt, one that finds no room, and path state that dies or is torn down.
#[tactic(auto, using(crate::proofs::Exemplary::path_laws_have_examples))]
pub fn path_laws_have_examples()
    ensures { PathLawsHaveExamples }
{}

/// A node with a path and a reservation, an input that may change none of its tables by itself, and calm ones.
#[tactic(auto, using(crate::proofs::Exemplary::frame_laws_have_examples))]
pub fn frame_laws_have_examples()
    ensures { FrameLawsHaveExamples }
{}

/// A countdown that starts, one that waits, and one that comes due.
#[tactic(auto, using(crate::proofs::Exemplary::countdown_law_has_examples))]
pub fn countdown_law_has_examples()
    ensures { CountdownLawHasExamples }
{}

/// A Path and a PathTear that are sent, and a Path and a Resv that are refreshes.
#[tactic(auto, using(crate::proofs::Exemplary::send_laws_have_examples))]
pub fn send_laws_have_examples()
    ensures { SendLawsHaveExamples }
{}

/// A node within bounds, and inputs that are fit for it.
#[tactic(auto, using(crate::proofs::Exemplary::bound_laws_have_examples))]
pub fn bound_laws_have_examples()
    ensures { BoundLawsHaveExamples }
{}

/// A Resv under a line that the node can hold, and a line that it cannot.
#[tactic(auto, using(crate::proofs::Exemplary::acceptance_has_examples))]
pub fn acceptance_has_examples()
    ensures { AcceptanceHasExamples }
{}

/// A reservation that is asked for, stays, beside a ResvTear of another sender too, and is torn down, with the Resv and the
/// ResvTear that are sent.
#[tactic(auto, using(crate::proofs::Instances::reservation_laws_have_examples))]
pub fn reservation_laws_have_examples()
    ensures { ReservationLawsHaveExamples }
{}

/// A refusal, an error that goes on, and a unit that goes toward a hop under a blockade.
#[tactic(auto, using(crate::proofs::Instances::blame_laws_have_examples))]
pub fn blame_laws_have_examples()
    ensures { BlameLawsHaveExamples }
{}

/// A ResvErr that sets a blockade and goes on.
#[tactic(auto, using(crate::proofs::Exemplary::error_laws_have_examples))]
pub fn error_laws_have_examples()
    ensures { ErrorLawsHaveExamples }
{}
