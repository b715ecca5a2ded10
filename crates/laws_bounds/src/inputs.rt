//! Laws of what each input does: messages and faults that come, local calls, left-over facts, and an input that changes nothing.
ghost use Rattle.laws_bounds.specs.AskLaws.{LossesByNames, ResvsInSteps, StylesInConflict, UnitsInFull, UnitsOneByOne};
ghost use Rattle.laws_bounds.specs.CallLaws.{CallRefusals, CallsLeave, ClearLeaves, StaleLeaves, StaleRefusals, StepsWithoutChange};
ghost use Rattle.laws_bounds.specs.ErrorLaws.{ArrivalsByAddress, ErrorsAndWalls, ErrorsOnceEach, FaultsByHint, PathErrsByTests, ResvErrsByTests};
ghost use Rattle.laws_bounds.specs.MessageLaws.{ConfirmationsByWish, PathsByTests, ResvTearsByNames};

/// The units of a Resv are handled one by one: a unit that is taken changes the reservation of its own key, and one that is
/// refused or left out changes none.
#[tactic(auto, using(crate::proofs::Taking::units_one_by_one))]
pub fn units_one_by_one()
    ensures { UnitsOneByOne }
{}

/// A blockade was there, or an error set it.
#[tactic(auto, using(crate::proofs::Telling::errors_and_walls))]
pub fn errors_and_walls()
    ensures { ErrorsAndWalls }
{}

/// A Path is dropped for want of a sender, off its tree or for want of room, and else learnt; a PathTear takes away the path
/// of its own hop alone.
#[tactic(auto, using(crate::proofs::Receiving::paths_by_tests))]
pub fn paths_by_tests()
    ensures { PathsByTests }
{}

/// A ResvTear takes its names from the reservations of its hop, where it finds one of them, and changes nothing else.
#[tactic(auto, using(crate::proofs::Receiving::resv_tears_by_names))]
pub fn resv_tears_by_names()
    ensures { ResvTearsByNames }
{}

/// A ResvConf goes on to each next hop that wanted to hear of a reservation that it speaks of, once, and to nobody else.
#[tactic(auto, using(crate::proofs::Receiving::confirmations_by_wish))]
pub fn confirmations_by_wish()
    ensures { ConfirmationsByWish }
{}

/// A message for others changes nothing; one for this node is handled by its kind.
#[tactic(auto, using(crate::proofs::Answering::arrivals_by_address))]
pub fn arrivals_by_address()
    ensures { ArrivalsByAddress }
{}

/// A message that is not spelt is answered where its fault has a code and its hint says whom to tell, and else dropped.
#[tactic(auto, using(crate::proofs::Answering::faults_by_hint))]
pub fn faults_by_hint()
    ensures { FaultsByHint }
{}

/// A PathErr goes back along the path of its sender until that is a local one, and changes nothing.
#[tactic(auto, using(crate::proofs::Erring::path_errs_by_tests))]
pub fn path_errs_by_tests()
    ensures { PathErrsByTests }
{}

/// A ResvErr sets the blockades that it speaks of, all or none, changes nothing else, and goes on as they then stand.
#[tactic(auto, using(crate::proofs::Erring::resv_errs_by_tests))]
pub fn resv_errs_by_tests()
    ensures { ResvErrsByTests }
{}

/// Of a ResvErr one goes on to each next hop of a reservation that it speaks of, one to each, and none to others.
#[tactic(auto, using(crate::proofs::Erring::errors_once_each))]
pub fn errors_once_each()
    ensures { ErrorsOnceEach }
{}

/// A Resv is in conflict with the first other style that a reservation or a local want of its session has.
#[tactic(auto, using(crate::proofs::Styling::styles_in_conflict))]
pub fn styles_in_conflict()
    ensures { StylesInConflict }
{}

/// A name matches where a known sender has it whose tree goes out here; those that do not match are refused.
#[tactic(auto, using(crate::proofs::Styling::losses_by_names))]
pub fn losses_by_names()
    ensures { LossesByNames }
{}

/// What each unit of a Resv leaves, whole: to whom a ResvErr goes, what takes its place, and whether one was left out.
#[tactic(auto, using(crate::proofs::Wholes::units_in_full))]
pub fn units_in_full()
    ensures { UnitsInFull }
{}

/// A Resv is refused for want of a path or for its style, and then changes nothing, or its units are handled one by one; the
/// first error is heard, else that a unit was left out.
#[tactic(auto, using(crate::proofs::Wholes::resvs_in_steps))]
pub fn resvs_in_steps()
    ensures { ResvsInSteps }
{}

/// An input that changes no fact leaves the node as it was, and sends its errors and confirmations alone.
#[tactic(auto, using(crate::proofs::Quiet::steps_without_change))]
pub fn steps_without_change()
    ensures { StepsWithoutChange }
{}

/// When each local call is refused, and when not.
#[tactic(auto, using(crate::proofs::Calling::call_refusals))]
pub fn call_refusals()
    ensures { CallRefusals }
{}

/// What each local call leaves; a refused one changes nothing of a node.
#[tactic(auto, using(crate::proofs::Calling::calls_leave))]
pub fn calls_leave()
    ensures { CallsLeave }
{}

/// When each left-over fact is refused, and when not.
#[tactic(auto, using(crate::proofs::Calling::stale_refusals))]
pub fn stale_refusals()
    ensures { StaleRefusals }
{}

/// A left-over fact is put in its place, or changes nothing.
#[tactic(auto, using(crate::proofs::Calling::stale_leaves))]
pub fn stale_leaves()
    ensures { StaleLeaves }
{}

/// A clear leaves local senders and wants alone, and sends nothing.
#[tactic(auto, using(crate::proofs::Calling::clear_leaves))]
pub fn clear_leaves()
    ensures { ClearLeaves }
{}
