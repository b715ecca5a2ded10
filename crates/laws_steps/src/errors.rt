//! Laws of errors and blockades (RFC 2205, 3.5).
ghost use Rattle.laws_steps.specs.BlameLaws.{WhereAnErrorWithAFlowComesFrom, UnitsOfTowardDoNotDependOnBlockade};
ghost use Rattle.laws_steps.specs.ErrorLaws.{WhereABlockadeComesFrom, AnErrorChangesNoFact};

/// A blockade after a step was there before, or a ResvErr of admission control with a flow set it, that came from a previous
/// hop of its session.
pub fn where_a_blockade_comes_from()
    ensures { WhereABlockadeComesFrom }
{}

/// A PathErr, a ResvErr and a ResvConf change no fact but blockades, and those only a ResvErr of admission control with a flow.
#[tactic(auto, using(crate::proofs::Erring::an_error_changes_no_fact))]
pub fn an_error_changes_no_fact()
    ensures { AnErrorChangesNoFact }
{}

/// A ResvErr with a flow that is sent is the refusal of a unit of a Resv that came, or an error that came with this flow and
/// goes on to the next hop of a reservation, with names of both.
#[tactic(auto, using(crate::proofs::Blaming::where_an_error_with_a_flow_comes_from))]
pub fn where_an_error_with_a_flow_comes_from()
    ensures { WhereAnErrorWithAFlowComesFrom }
{}

/// The units that go toward a hop are the same whatever the blockades: a blockade drops no unit.
pub fn units_of_toward_do_not_depend_on_blockade()
    ensures { UnitsOfTowardDoNotDependOnBlockade }
{}
