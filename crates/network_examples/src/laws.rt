//! The rows.
ghost use Rattle.network_examples.specs.Confirmed.{ConfirmationsInAPair};
ghost use Rattle.network_examples.specs.Goals.{AGoalCanBeHeld, AGoalHasInterfaces, AReservationIsUnderTheGoal, ASessionHasOneStyle, AWantHasAStyle};
ghost use Rattle.network_examples.specs.Kept.{ARunCanBeUnfit, WhatIsAskedCanChange};
ghost use Rattle.network_examples.specs.Previous.{APathComesOverAHop, TowardSaysSomething};
ghost use Rattle.network_examples.specs.Ready.{AResvGoesAstray, AReservationIsOnItsWay, AnErrorIsOnItsWay};
ghost use Rattle.network_examples.specs.Said.{APathSaysItsHop, NobodyAsksForIt, NobodySaysThePath};
ghost use Rattle.network_examples.specs.Starts.{AStartRefuses};
ghost use Rattle.network_examples.specs.Tight.{TwoRoundsAreTooFew};
ghost use Rattle.network_examples.specs.TightPaths.{EightRoundsAreTooFew};
ghost use Rattle.network_examples.specs.Unanswered.{ARequestIsNotAnswered};

/// A Resv that goes astray meets the premises of `arrivals_are_taken` through two calm rounds, and is not taken where it arrives
/// before.
pub fn a_resv_goes_astray()
    ensures { AResvGoesAstray }
{}

/// An error with a flow that is in flight meets the premises of `errors_are_gone` through three calm rounds.
pub fn an_error_is_on_its_way()
    ensures { AnErrorIsOnItsWay }
{}

/// A reservation that is asked for and does not stand yet meets the premises of `reservations_become_exact` through four calm
/// rounds.
pub fn a_reservation_is_on_its_way()
    ensures { AReservationIsOnItsWay }
{}

/// Two starts of convergence, one at which an injected Resv is refused and one with an error in flight, meet the premises of
/// `nothing_is_refused`.
pub fn a_start_refuses()
    ensures { AStartRefuses }
{}

/// A path that came over a hop meets the premises of `previous_hops_are_hops` and `previous_hops_are_all_hops`. Where a path is left
/// over, or a Path has not come yet, what these promise does not hold.
pub fn a_path_comes_over_a_hop()
    ensures { APathComesOverAHop }
{}

/// What a host asks for goes toward a hop, in a world that meets the premises of `toward_is_at_most_the_want` and of
/// `toward_is_the_want`. Without sound paths too much goes there, and without complete ones too little.
pub fn toward_says_something()
    ensures { TowardSaysSomething }
{}

/// A want of one sender by name has a style, as `local_wants_are_shaped` and `wants_have_styles` say. A want of two at once, which
/// no call makes, has none.
pub fn a_want_has_a_style()
    ensures { AWantHasAStyle }
{}

/// Demands that fit meet the premise of `a_session_has_one_style`; two styles of one session do not.
pub fn a_session_has_one_style()
    ensures { ASessionHasOneStyle }
{}

/// The goal of a node whose end and interface have different numbers, as `the_goal_by_iface` has it.
pub fn a_goal_has_interfaces()
    ensures { AGoalHasInterfaces }
{}

/// A goal that is not empty and fits meets the premises of `a_session_that_fits_can_be_held`. One that does not fit cannot be held.
pub fn a_goal_can_be_held()
    ensures { AGoalCanBeHeld }
{}

/// A reservation that is sound meets the premise of `what_is_sound_is_under_the_goal`; one that is left over is under no line.
pub fn a_reservation_is_under_the_goal()
    ensures { AReservationIsUnderTheGoal }
{}

/// A host that asks meets the premises of `calm_rounds_keep_what_is_asked`; where it quits, something else is asked.
pub fn what_is_asked_can_change()
    ensures { WhatIsAskedCanChange }
{}

/// A fit script meets the premise of `each_world_of_a_run_is_within_bounds`. One whose host sends with a flow of nothing leaves the
/// bounds, and one whose host sends to no group does not keep what `each_world_of_a_run_keeps_the_locals` promises.
pub fn a_run_can_be_unfit()
    ensures { ARunCanBeUnfit }
{}

/// Of the three rounds after which blockades are gone none can be spared.
pub fn two_rounds_are_too_few()
    ensures { TwoRoundsAreTooFew }
{}

/// A left-over path that nobody says meets the premises of `only_said_paths_are_kept`, with no path allowed, through six calm rounds,
/// and is kept at their start.
pub fn nobody_says_the_path()
    ensures { NobodySaysThePath }
{}

/// A left-over reservation that nobody asks for meets the premises of `only_said_resvs_are_kept`, with none allowed, through six calm
/// rounds, and is kept at their start.
pub fn nobody_asks_for_it()
    ensures { NobodyAsksForIt }
{}

/// The first Path of a host, of which `the_hop_of_what_is_sent` says something.
pub fn a_path_says_its_hop()
    ensures { APathSaysItsHop }
{}

/// Of the nine rounds after which paths are sound where the longest chain is one hop none can be spared.
pub fn eight_rounds_are_too_few()
    ensures { EightRoundsAreTooFew }
{}

/// A host that asks for a confirmation gets one, by a run that meets the premises of `a_confirmation_is_held` and of
/// `each_confirmation_has_begun`. One that was injected begins nowhere. And what is confirmed may be gone when the ResvConf arrives.
pub fn confirmations_in_a_pair()
    ensures { ConfirmationsInAPair }
{}

/// Not each request for a confirmation is answered, though all has settled, what is asked fits and nothing is lost: a host that has what it
/// wants and asks for the same again, with a confirmation, changes nothing of what goes toward its sender, so that its mark waits.
pub fn a_request_is_not_answered()
    ensures { ARequestIsNotAnswered }
{}
