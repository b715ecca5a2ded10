//! The rows. Each holds by computing the rule.
ghost use Rattle.router_examples.specs.BoundRows.{LivedIsWithinBounds};
ghost use Rattle.router_examples.specs.EdgeRows.{SomeNamesLeave, SendersAreBlockaded, ErrorsTogether, TooManyNames, WantsConflict, HandlesGoBack, RefusalsArrive};
ghost use Rattle.router_examples.specs.PathRows.{PathGoesOn, AdspecsAreKept, AdspecsGoOn, PathsDropped, PathsEnd, LocalSenders, LocalSendersAreAdvertised};
ghost use Rattle.router_examples.specs.PathRows.{PathsMove, FaultsAreAnswered, PathErrorsGoOn};
ghost use Rattle.router_examples.specs.ResvRows.{ResvGoesOn, RefusedRaiseKeepsTheOld, NoPathNoReservation, LeftOut, StylesMergeByTheirUnits, NextHopsMerge, TearsGoOn, GreedyIsBlockaded};
ghost use Rattle.router_examples.specs.ResvRows.{BlockadedMerge, ErrorsGoOn, ConfirmationsComeBack, MarksWait, CallsAreRefused, FlagsAreByPaths};

/// A Path is learnt and goes on, and again when its session comes due.
#[tactic(auto, using(crate::proofs::Worked::path_goes_on))]
pub fn path_goes_on()
    ensures { PathGoesOn }
{}

/// The ADSPEC of the last Path that was taken is kept with its path.
#[tactic(auto, using(crate::proofs::Worked::adspecs_are_kept))]
pub fn adspecs_are_kept()
    ensures { AdspecsAreKept }
{}

/// A Path is sent on with the ADSPEC that the interface composes of the kept one, and is sent again where that becomes another.
#[tactic(auto, using(crate::proofs::Worked::adspecs_go_on))]
pub fn adspecs_go_on()
    ensures { AdspecsGoOn }
{}

/// Paths by the wrong interface, to the wrong address, without a sender or one too many are dropped.
#[tactic(auto, using(crate::proofs::Worked::paths_dropped))]
pub fn paths_dropped()
    ensures { PathsDropped }
{}

/// Paths are torn down from their own hop, and die where they are not refreshed.
#[tactic(auto, using(crate::proofs::Worked::paths_end))]
pub fn paths_end()
    ensures { PathsEnd }
{}

/// A local sender's Path asks for policing, and goes again where it changes.
#[tactic(auto, using(crate::proofs::Worked::local_senders))]
pub fn local_senders()
    ensures { LocalSenders }
{}

/// A local sender that is advertised says from then on what its path offers, until it ends.
#[tactic(auto, using(crate::proofs::Worked::local_senders_are_advertised))]
pub fn local_senders_are_advertised()
    ensures { LocalSendersAreAdvertised }
{}

/// A node that leaves a tree tears its offer down, and one that enters it offers.
#[tactic(auto, using(crate::proofs::Worked::paths_move))]
pub fn paths_move()
    ensures { PathsMove }
{}

/// A Path with an object of an unknown class is answered.
#[tactic(auto, using(crate::proofs::Worked::faults_are_answered))]
pub fn faults_are_answered()
    ensures { FaultsAreAnswered }
{}

/// A PathErr goes back along the path to the local sender.
#[tactic(auto, using(crate::proofs::Worked::path_errors_go_on))]
pub fn path_errors_go_on()
    ensures { PathErrorsGoOn }
{}

/// A reservation is made and goes on; the same again changes nothing, at full capacity too.
#[tactic(auto, using(crate::proofs::Worked::resv_goes_on))]
pub fn resv_goes_on()
    ensures { ResvGoesOn }
{}

/// A refused raise keeps the old reservation.
#[tactic(auto, using(crate::proofs::Worked::refused_raise_keeps_the_old))]
pub fn refused_raise_keeps_the_old()
    ensures { RefusedRaiseKeepsTheOld }
{}

/// Where no path is, no reservation is made; of several senders those with a path have theirs.
#[tactic(auto, using(crate::proofs::Worked::no_path_no_reservation))]
pub fn no_path_no_reservation()
    ensures { NoPathNoReservation }
{}

/// A unit for which a table has no room is left out, without an error.
#[tactic(auto, using(crate::proofs::Worked::left_out))]
pub fn left_out()
    ensures { LeftOut }
{}

/// Fixed filters stay apart, shared ones join, and two styles of a session do not meet.
#[tactic(auto, using(crate::proofs::Worked::styles_merge_by_their_units))]
pub fn styles_merge_by_their_units()
    ensures { StylesMergeByTheirUnits }
{}

/// Reservations of two next hops on one interface are merged in its book.
#[tactic(auto, using(crate::proofs::Worked::next_hops_merge))]
pub fn next_hops_merge()
    ensures { NextHopsMerge }
{}

/// A ResvTear goes on; a sender that is gone leaves the reservations; a tree that moves takes them with it.
#[tactic(auto, using(crate::proofs::Worked::tears_go_on))]
pub fn tears_go_on()
    ensures { TearsGoOn }
{}

/// A greedy receiver is blockaded: the smaller request goes on, and the larger one is tried again after the blockade.
#[tactic(auto, using(crate::proofs::Worked::greedy_is_blockaded))]
pub fn greedy_is_blockaded()
    ensures { GreedyIsBlockaded }
{}

/// Where all requests are blockaded their meet goes on, and where one is open it alone.
#[tactic(auto, using(crate::proofs::Worked::blockaded_merge))]
pub fn blockaded_merge()
    ensures { BlockadedMerge }
{}

/// A ResvErr goes on with the names of each reservation that it speaks of.
#[tactic(auto, using(crate::proofs::Worked::errors_go_on))]
pub fn errors_go_on()
    ensures { ErrorsGoOn }
{}

/// A wish to be confirmed goes on with the change that it made, and its confirmation comes back.
#[tactic(auto, using(crate::proofs::Worked::confirmations_come_back))]
pub fn confirmations_come_back()
    ensures { ConfirmationsComeBack }
{}

/// A local wish waits until its want takes part in what is sent, and while a message has a wish of its own.
#[tactic(auto, using(crate::proofs::Worked::marks_wait))]
pub fn marks_wait()
    ensures { MarksWait }
{}

/// Local calls and left-over reservations are refused.
#[tactic(auto, using(crate::proofs::Worked::calls_are_refused))]
pub fn calls_are_refused()
    ensures { CallsAreRefused }
{}

/// Policing flags come from the paths that match an entry, and from the reservations beside it.
#[tactic(auto, using(crate::proofs::Worked::flags_are_by_paths))]
pub fn flags_are_by_paths()
    ensures { FlagsAreByPaths }
{}

/// A router with a sender and a receiver of its own, a path, a reservation and a blockade is within bounds.
#[tactic(auto, using(crate::proofs::Lived::lived_is_within_bounds))]
pub fn lived_is_within_bounds()
    ensures { LivedIsWithinBounds }
{}

/// A reservation that loses some of its names stays with the others, and what goes on is sent anew.
#[tactic(auto, using(crate::proofs::WorkedEdges::some_names_leave))]
pub fn some_names_leave()
    ensures { SomeNamesLeave }
{}

/// FF and SE requests are held back by the blockade of any of their senders.
#[tactic(auto, using(crate::proofs::WorkedEdges::senders_are_blockaded))]
pub fn senders_are_blockaded()
    ensures { SendersAreBlockaded }
{}

/// Two errors of one Resv go in the order of their senders, and the first is heard.
#[tactic(auto, using(crate::proofs::WorkedEdges::errors_together))]
pub fn errors_together()
    ensures { ErrorsTogether }
{}

/// A WF Resv for all is left out where more than sixteen addresses match.
#[tactic(auto, using(crate::proofs::WorkedEdges::too_many_names))]
pub fn too_many_names()
    ensures { TooManyNames }
{}

/// A Resv of another style than a local want's is refused.
#[tactic(auto, using(crate::proofs::WorkedEdges::wants_conflict))]
pub fn wants_conflict()
    ensures { WantsConflict }
{}

/// The handle that a previous hop gave goes back to it.
#[tactic(auto, using(crate::proofs::WorkedEdges::handles_go_back))]
pub fn handles_go_back()
    ensures { HandlesGoBack }
{}

/// A refusal reaches the receiver and changes nothing there but its blockade; an open request alone goes on.
#[tactic(auto, using(crate::proofs::WorkedEdges::refusals_arrive))]
pub fn refusals_arrive()
    ensures { RefusalsArrive }
{}
