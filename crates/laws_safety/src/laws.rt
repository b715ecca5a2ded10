//! The laws. Each world of a run is one of its first world and those after each step, each step one in the world in which it is made.
ghost use Rattle.laws_safety.specs.Blockades.{ABlockadeStays, AResvErrTearsNothing, AnAdmissionErrorSetsItsBlockade, BlockadesDropNothing, EachResvSaysWhatGoesToward, WhatGoesOnIsBelow};
ghost use Rattle.laws_safety.specs.Books.{AreBooksWithinCapacity};
ghost use Rattle.laws_safety.specs.Confirmations.{AConfirmationIsHeld, EachConfirmationHasBegun};
ghost use Rattle.laws_safety.specs.InRuns.{AtEveryStep, InEveryWorld};
ghost use Rattle.laws_safety.specs.Refusals.{ARefusedCallChangesNothing, ARefusedResvChangesNoReservation, AResvChangesWhatItTakesAlone, AUnitThatPassesIsBooked, AnUntakenUnitChangesNothing};

/// No book passes its capacity, nor any part of it the MTU, in any world of the run of any fit script (RFC 2205, 1: admission control).
pub fn no_book_passes_its_capacity()
    ensures { InEveryWorld AreBooksWithinCapacity }
{}

/// A refused local call changes nothing of the network, and nothing is sent for it.
pub fn a_refused_call_changes_nothing()
    ensures { AtEveryStep ARefusedCallChangesNothing }
{}

/// A unit of a Resv that is refused, left out or matches nobody changes nothing of its reservation: names, flow and the moment of
/// its death stay, so that no lifetime begins anew.
pub fn an_untaken_unit_changes_no_reservation()
    ensures { AtEveryStep AnUntakenUnitChangesNothing }
{}

/// A Resv changes no reservations of its node but those of its units that are taken: none of another session, hop or style, and none
/// at all where it is for another address than that of the interface by which it comes.
pub fn a_resv_changes_what_it_takes_alone()
    ensures { AtEveryStep AResvChangesWhatItTakesAlone }
{}

/// A Resv that is refused as a whole, for want of a path or for its style, changes no reservation of its node.
pub fn a_refused_resv_changes_no_reservation()
    ensures { AtEveryStep ARefusedResvChangesNoReservation }
{}

/// A unit of a Resv that passes the tests is booked on arrival, whatever blockades there are: it stands with the names that
/// match, its flow and a new lifetime.
pub fn a_unit_that_passes_is_booked()
    ensures { AtEveryStep AUnitThatPassesIsBooked }
{}

/// Each Resv that is sent over a hop asks for exactly what goes toward it by its sender's facts at the end of the step.
pub fn each_resv_says_what_goes_toward()
    ensures { AtEveryStep EachResvSaysWhatGoesToward }
{}

/// While a blockade lives, a unit with a request that is not blockaded goes on: as the join of all such requests, each below each
/// blockade that speaks of it (RFC 2205, 3.5).
pub fn what_goes_on_is_below_the_blockade()
    ensures { WhatGoesOnIsBelow }
{}

/// A ResvErr of an admission failure that its node takes sets its blockade, with the flow that was refused and the value of the error.
pub fn an_admission_error_sets_its_blockade()
    ensures { AtEveryStep AnAdmissionErrorSetsItsBlockade }
{}

/// A blockade stays until it dies, its node takes another error that replaces it, or its node is cleared. An error that the node drops
/// replaces nothing.
pub fn a_blockade_stays()
    ensures { AtEveryStep ABlockadeStays }
{}

/// A blockade drops no unit, and none goes on with less than the meet of all its requests.
pub fn blockades_drop_nothing()
    ensures { BlockadesDropNothing }
{}

/// A step that delivers a ResvErr sends no ResvTear and changes no reservation.
pub fn a_resv_err_tears_nothing()
    ensures { AtEveryStep AResvErrTearsNothing }
{}

/// A ResvConf that a node sends begins there or goes on: where it begins, a Resv came that asks for it, and behind the step the book of
/// its interface holds at least what is confirmed: units for which that Resv asked, with these flows and with each sender that is listed
/// (RFC 2205, 2.6).
pub fn a_confirmation_is_held()
    ensures { AtEveryStep AConfirmationIsHeld }
{}

/// Each ResvConf that is in flight, and so each that reaches who asked for it, began so at an earlier step of the run, or was injected.
pub fn each_confirmation_has_begun()
    ensures { EachConfirmationHasBegun }
{}
