//! The laws.
ghost use Rattle.std.specs.Prelude.{◌≡◌, ◌+◌, ◌*◌, ◌++◌, ℕ, suc, List, true};
ghost use Rattle.rsvp_base.specs.declared.session.Session.{Session};
ghost use Rattle.calm_rounds.specs.Hold.{Hold};
ghost use Rattle.calm_rounds.specs.Machine.{run};
ghost use Rattle.calm_rounds.specs.Rounds.{Rounds};
ghost use Rattle.tree_model.specs.Goals.{DemandsFit};
ghost use Rattle.tree_model.specs.Ranks.{longest};
ghost use Rattle.network_model.specs.Bounds.{AreBounds, AreHosts, IsPurged, IsSettled, IsStart};
ghost use Rattle.network_model.specs.Locals.{locals_of};
ghost use Rattle.network_model.specs.Runs.{Plan, first_world, steps_of_run};
ghost use Rattle.network_model.specs.Sound.{AreResvsExact, HasNoFlowError, TakesAll};
ghost use Rattle.network_model.specs.Steps.{Step, is_quiet, machine};
ghost use Rattle.network_model.specs.Worlds.{World};
ghost use Rattle.laws_network.specs.Runs.{AreFitSenders, IsFitRun};
ghost use Rattle.settle_resvs.specs.Sessions.{SessionFits};
ghost use Rattle.settle_network.specs.Example.{ItHasNotSettledYet};
ghost use Rattle.settle_network.specs.Flags.{ArePathsPoliced, FlagsAreAFunction, HasSettledFlags};
ghost use Rattle.settle_network.specs.DemandedFlags.{SettledFlagsAreDemanded};
ghost use Rattle.settle_network.specs.FlagsExample.{FlagsAreSo, FlagsCanDiffer};
ghost use Rattle.settle_network.specs.Purged.{HasNothingStale};
ghost use Rattle.settle_network.specs.RunExample.{ARunMeetsThePremises};
ghost use Rattle.settle_network.specs.Sessions.{HasSettledFor};
ghost use Rattle.settle_network.specs.Settled.{HasSettled};
ghost use Rattle.settle_network.specs.Tight.{ThreeRoundsAreTooFew};

/// Nothing is refused: from any start, 11 H + 10 calm rounds on, each arrival is taken whole, and no ResvErr with a flow is in
/// flight. An error goes on along a chain of hops, one round a hop, and none is made.
pub fn nothing_is_refused()
    ensures { (q : ℕ) (w : World) (rs : List (List Step)) → Rounds (machine q) rs w → IsStart q w
        → Hold (machine q) (((4 + 5 * longest w.net) + (5 + 5 * longest w.net)) + suc (longest w.net)) rs w (λ u. ((s : Step) → is_quiet s ≡ true → TakesAll q s u) × HasNoFlowError u) }
{}

/// Reservations are the wants: from any start, 13 H + 13 calm rounds on, what stands of a style and session over a hop is exactly
/// what is wanted over it, unit by unit.
pub fn reservations_are_the_wants()
    ensures { (q : ℕ) (w : World) (rs : List (List Step)) → Rounds (machine q) rs w → IsStart q w → Hold (machine q) (13 * longest w.net + 13) rs w AreResvsExact }
{}

/// A network settles: from any start, whatever nodes kept and whatever was in flight, on a routing without loops and with demands
/// that fit, 13 H + 13 calm rounds on paths are sound and complete, reservations are exactly the wants, the book of each end is
/// its demand, nothing is refused, no error with a flow is in flight and no blockade lives. So it stays through every further
/// calm round.
pub fn a_network_settles()
    ensures { (q : ℕ) (w : World) (rs : List (List Step)) → Rounds (machine q) rs w → IsStart q w → Hold (machine q) (13 * longest w.net + 13) rs w (HasSettled q) }
{}

/// Each session settles by itself: from any world within bounds with hosts, where a session fits at every end that carries it, 13 H + 13
/// calm rounds on its reservations are exactly its wants, its entries in the book of each end are those of the end's demand, nothing
/// of it is refused, no error of it with a flow is in flight and no blockade of it lives. What other sessions ask for, and whether it
/// fits, makes no difference.
pub fn a_session_settles()
    ensures { (q : ℕ) (s : Session) (w : World) (rs : List (List Step)) → Rounds (machine q) rs w → AreBounds q w → AreHosts w → SessionFits w.net (locals_of w) s
        → Hold (machine q) (13 * longest w.net + 13) rs w (HasSettledFor q s) }
{}

/// So it is in the run of a fit script that lets few senders send, at each point behind 13 H + 13 calm rounds, for each session that
/// fits when these begin.
pub fn a_session_of_a_run_settles()
    ensures { (p : Plan) → IsFitRun p → AreFitSenders p → (ss ts : List Step) → steps_of_run p ≡ ss ++ ts → (is : IsSettled p.quarter (first_world p) ss) → (s : Session)
        → SessionFits (run (machine p.quarter) is.before (first_world p)).net (locals_of (run (machine p.quarter) is.before (first_world p))) s
        → HasSettledFor p.quarter s (run (machine p.quarter) ss (first_world p)) }
{}

/// Nothing stale is left, even where more is asked for than fits: from any world within bounds, 10 H + 9 calm rounds on, paths are
/// those of live senders along their trees, reservations lie below the wants, and the book of each end is at most its demand. So no
/// book has a session, style or sender that nobody below wants, and none promises more than its demand.
pub fn nothing_stale_is_left()
    ensures { (q : ℕ) (w : World) (rs : List (List Step)) → Rounds (machine q) rs w → AreBounds q w → Hold (machine q) (10 * longest w.net + 9) rs w HasNothingStale }
{}

/// So it is in the run of a script whose steps up to some point end in 10 H + 9 calm rounds, whatever it asks for.
pub fn a_run_is_purged()
    ensures { (p : Plan) → IsFitRun p → (ss ts : List Step) → steps_of_run p ≡ ss ++ ts → IsPurged p.quarter (first_world p) ss → HasNothingStale (run (machine p.quarter) ss (first_world p)) }
{}

/// So it is at a settled moment: the steps end in 13 H + 13 calm rounds, and the demands fit when these begin.
pub fn a_settled_moment()
    ensures { (q : ℕ) (w : World) (ss : List Step) (is : IsSettled q w ss) → IsStart q (run (machine q) is.before w) → HasSettled q (run (machine q) ss w) }
{}

/// The run of a script settles: where the script is fit and lets few senders send, its steps up to some point end in 13 H + 13
/// calm rounds, and the demands fit when these begin, the network has settled at that point, whatever was left over, injected,
/// lost, copied, cleared or rerouted before. So what is reported there is what the demands are.
pub fn a_run_settles()
    ensures { (p : Plan) → IsFitRun p → AreFitSenders p → (ss ts : List Step) → steps_of_run p ≡ ss ++ ts → (is : IsSettled p.quarter (first_world p) ss)
        → DemandsFit (run (machine p.quarter) is.before (first_world p)).net (locals_of (run (machine p.quarter) is.before (first_world p)))
        → HasSettled p.quarter (run (machine p.quarter) ss (first_world p)) }
{}

/// The run of a small script, with a left-over reservation, a host that sends, 32 rounds and a report, meets the premises of
/// `a_run_settles` at the report, and has not settled when its rounds begin.
pub fn a_run_meets_the_premises()
    ensures { ARunMeetsThePremises }
{}

/// The first world of a script with a left-over reservation, of a next hop that no end has, meets the premises of
/// `a_network_settles` through 26 calm rounds, and has not settled at their start.
pub fn it_has_not_settled_yet()
    ensures { ItHasNotSettledYet }
{}

/// Of the rounds until paths are sound, 5 H + 4, none can be spared where no hop is: a node alone with a left-over path meets the
/// premises of `paths_are_sound` through three rounds as short as calm rounds can be, and after them its paths are not sound.
pub fn three_rounds_are_too_few()
    ensures { ThreeRoundsAreTooFew }
{}

/// Paths say E_Police where they should: from any world within bounds, five calm rounds on, a path says E_Police exactly where the
/// node that it came from has the sender (RFC 2205, 3.8).
pub fn paths_are_policed()
    ensures { (q : ℕ) (w : World) (rs : List (List Step)) → Rounds (machine q) rs w → AreBounds q w → Hold (machine q) 5 rs w ArePathsPoliced }
{}

/// Flags settle: at a settled moment the network has settled, and its paths say E_Police where they should.
pub fn flags_settle()
    ensures { (q : ℕ) (w : World) (ss : List Step) (is : IsSettled q w ss) → IsStart q (run (machine q) is.before w) → HasSettledFlags q (run (machine q) ss w) }
{}

/// So it is in the run of a fit script that lets few senders send, at each settled moment at which the demands fit.
pub fn flags_of_a_run_settle()
    ensures { (p : Plan) → IsFitRun p → AreFitSenders p → (ss ts : List Step) → steps_of_run p ≡ ss ++ ts → (is : IsSettled p.quarter (first_world p) ss)
        → DemandsFit (run (machine p.quarter) is.before (first_world p)).net (locals_of (run (machine p.quarter) is.before (first_world p)))
        → HasSettledFlags p.quarter (run (machine p.quarter) ss (first_world p)) }
{}

/// What `flags` writes of a network whose flags are settled is demanded: of each end the entries of its demand, each with E where its data
/// comes straight from a source, with M where the style merges several senders that come there from other nodes, and with B where another
/// reservation that shares a sender is wanted at the node, for which the entry's flow cannot stand (RFC 2205, 3.8).
pub fn settled_flags_are_demanded()
    ensures { SettledFlagsAreDemanded }
{}

/// So it is a function of the network, its senders and its wants: two worlds whose flags are settled, and that are alike in these, write
/// the same.
pub fn flags_are_a_function()
    ensures { FlagsAreAFunction }
{}

/// The flags that are demanded of two senders and two receivers in shared style, worked out by hand.
pub fn flags_are_so()
    ensures { FlagsAreSo }
{}

/// Of a network whose flags have not settled, what `flags` writes is no function of these: an injected Path without E_Police changes it,
/// and what is written is not what is demanded.
pub fn flags_can_differ()
    ensures { FlagsCanDiffer }
{}
