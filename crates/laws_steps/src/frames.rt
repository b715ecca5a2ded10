//! What a step leaves as it is, table by table.
ghost use Rattle.laws_steps.specs.FrameLaws.{LeftAsItWas, CalmStepsKeepTheLocals};

/// Each table changes by the inputs that may change it alone. Of reservations names are forgotten where their last sender
/// goes; of local wants marks are used.
#[tactic(auto, using(crate::proofs::Framing::left_as_it_was))]
pub fn left_as_it_was()
    ensures { LeftAsItWas }
{}

/// What came in, and the passing of time, change no local sender, and of local wants the marks alone.
#[tactic(auto, using(crate::proofs::Framing::calm_steps_keep_the_locals))]
pub fn calm_steps_keep_the_locals()
    ensures { CalmStepsKeepTheLocals }
{}
