//! The laws.
ghost use Rattle.std.specs.Prelude.{◌≡◌, ℕ, List, Bool, Some};
ghost use Rattle.rsvp_base.specs.declared.addr.Addr.{Addr};
ghost use Rattle.rsvp_base.specs.Members.{In};
ghost use Rattle.rsvp_messages.specs.declared.message.Message.{Message};
ghost use Rattle.calm_rounds.specs.Hold.{Hold, Visited};
ghost use Rattle.calm_rounds.specs.Rounds.{Rounds};
ghost use Rattle.network_model.specs.RouterRules.Inputs.{Spelt};
ghost use Rattle.network_model.specs.Bounds.{AreBounds, AreHosts};
ghost use Rattle.network_model.specs.Runs.{Plan, first_world, steps_of_run};
ghost use Rattle.network_model.specs.Steps.{Step, machine, sent, step};
ghost use Rattle.network_model.specs.Worlds.{Item, World};
ghost use Rattle.laws_network.specs.Beginning.{APlanIsFit, IsFitPlan};
ghost use Rattle.laws_network.specs.Example.{APairStaysWithinBounds};
ghost use Rattle.laws_network.specs.Hops.{LeavesBy, hop_of};
ghost use Rattle.laws_network.specs.HowManySend.{HowManySend};
ghost use Rattle.laws_network.specs.Keeping.{IsFitStep};
ghost use Rattle.laws_network.specs.Known.{IsSameNet};
ghost use Rattle.laws_network.specs.Rounds.{RoundsIsCalm};
ghost use Rattle.laws_network.specs.Runs.{AreFitSenders, IsFitRun};

/// The command `rounds n` is n calm rounds, one after the other.
pub fn rounds_is_calm()
    ensures { (q n : ℕ) (w : World) → RoundsIsCalm q n w }
{}

/// The first world of a script is within bounds, where the script has a period and a valid network, and what is left over at
/// each node is fit there: it lives no longer than what was just refreshed, and has the shape of that.
pub fn the_first_world_is_within_bounds()
    ensures { (p : Plan) → IsFitPlan p → AreBounds p.quarter (first_world p) }
{}

/// So is each world of the run of a script, where what its events call, inject and reroute is fit besides.
pub fn each_world_of_a_run_is_within_bounds()
    ensures { (p : Plan) → IsFitRun p → Visited (machine p.quarter) (AreBounds p.quarter) (steps_of_run p) (first_world p) }
{}

/// Where few senders send at each point of the events, each to a group, the local senders of each world of the run keep what
/// "paths are complete" asks of them: each has an address of its node and sends to a group, and they are few.
pub fn each_world_of_a_run_keeps_the_locals()
    ensures { (p : Plan) → IsFitRun p → AreFitSenders p → Visited (machine p.quarter) (λ u. AreBounds p.quarter u × AreHosts u) (steps_of_run p) (first_world p) }
{}

/// "At each point" counts those who send then: any number of senders may send one after another, each dropped before the next,
/// and 17 of a session at once are too many.
pub fn how_many_may_send()
    ensures { HowManySend }
{}

/// Each step keeps a world within bounds, whatever step it is, where its piece, its call, its injected datagram or its new
/// tree is fit.
pub fn each_step_keeps_a_world_within_bounds()
    ensures { (q : ℕ) (w : World) (s : Step) → IsFitStep q w s → AreBounds q w → AreBounds q (step q s w) }
{}

/// So each world of a stretch of calm rounds is within bounds where the first one is.
pub fn calm_rounds_keep_bounds()
    ensures { (q : ℕ) (w : World) (rs : List (List Step)) → Rounds (machine q) rs w → AreBounds q w → Hold (machine q) 0 rs w (AreBounds q) }
{}

/// Calm rounds keep the network, its routes, and what its hosts ask of it: who sends, and what is wanted, but for marks of
/// confirmations. So wants, goals and demands are those of the first world all the while.
pub fn calm_rounds_keep_what_is_asked()
    ensures { (q : ℕ) (w : World) (rs : List (List Step)) → Rounds (machine q) rs w → AreBounds q w → Hold (machine q) 0 rs w (IsSameNet w) }
{}

/// The RSVP_HOP of each Path, PathTear, Resv, ResvTear and ResvErr that a node sends, by whatever step, has the address of
/// the end of its node by which it leaves.
pub fn the_hop_of_what_is_sent()
    ensures { (q : ℕ) (s : Step) (w : World) (y : Item) (mark : Bool) (m : Message) (a : Addr) → In (y, mark) (sent q s w) → y.arrival ≡ Spelt m → hop_of m ≡ Some a → LeavesBy q s w (y, mark) a }
{}

/// A small network is within bounds, and stays so through a round.
pub fn a_pair_stays_within_bounds()
    ensures { APairStaysWithinBounds }
{}

/// A script of a small network with a left-over reservation is such a one, and its first world has that reservation.
pub fn a_plan_is_fit()
    ensures { APlanIsFit }
{}
