//! The laws.
ghost use Rattle.std.specs.Prelude.{◌*◌, ℕ};
ghost use Rattle.calm_rounds.specs.Hold.{Visited};
ghost use Rattle.calm_rounds.specs.Machine.{run};
ghost use Rattle.router_rules.specs.Inputs.{Local};
ghost use Rattle.tree_model.specs.Goals.{DemandsFit};
ghost use Rattle.network_model.specs.Bounds.{AreHosts};
ghost use Rattle.network_model.specs.Locals.{locals_of};
ghost use Rattle.network_model.specs.Events.{half, pass, rounds};
ghost use Rattle.network_model.specs.Sound.{TakesAll};
ghost use Rattle.network_model.specs.Steps.{At, Deliver, Piece, machine, step};
ghost use Rattle.network_model.specs.Worlds.{World};
ghost use Rattle.settle_openings.specs.Fresh.{IsEmpty, IsFirstCall, IsFresh};
ghost use Rattle.settle_openings.specs.Opening.{IsOpening, IsRested, IsUntouched, LosesNothing, NothingIsLost};

/// An untouched network opens: one within bounds with hosts, in which no node keeps a path, a reservation or a blockade, and the Paths that local
/// senders' nodes send are in flight, all of them and nothing else, where what is asked for fits and nobody wants a confirmation.
pub fn an_untouched_network_opens()
    ensures { (q : ℕ) (w : World) → IsUntouched q w → IsRested q w × IsOpening q w }
{}

/// The delivery of the datagram that is first in flight keeps a network that opens: so no error, no tear and no confirmation is sent for it.
pub fn a_delivery_keeps_an_opening()
    ensures { (q : ℕ) (w : World) → IsOpening q w → IsOpening q (step q (Deliver 0) w) }
{}

/// And nothing is lost by it, and what arrives is taken whole: each node keeps a path of each sender that it had one of, each name that it had
/// reserved over a hop is reserved over it still, and each unit of a Resv that arrives stands as it was asked for.
pub fn a_delivery_loses_nothing()
    ensures { (q : ℕ) (w : World) → IsOpening q w → LosesNothing w (step q (Deliver 0) w) × TakesAll q (Deliver 0) w }
{}

/// A pass of all that is in flight rests it: each path and each reservation then lives 15 quarters of a period or more beyond the moment at
/// which it is refreshed next.
pub fn a_pass_rests_an_opening()
    ensures { (q : ℕ) (w : World) → IsOpening q w → IsRested q (run (machine q) (pass q w) w) }
{}

/// Half a period keeps a network that opens where it is rested: nothing dies, and refreshes alone are sent.
pub fn half_a_period_keeps_an_opening()
    ensures { (q : ℕ) (w : World) → IsRested q w → IsOpening q (step q (Piece (2 * q)) w) × LosesNothing w (step q (Piece (2 * q)) w) }
{}

/// So half a period and a pass keep it rested, and each world that they visit opens.
pub fn a_half_rests_an_opening()
    ensures { (q : ℕ) (w : World) → IsRested q w → Visited (machine q) (IsOpening q) (half q w) w × IsRested q (run (machine q) (half q w) w) }
{}

/// So a network that opens goes on to: from an untouched network on, however many rounds go by, each world on the way opens. No error, no tear
/// and no confirmation is ever in flight, as long as nothing is lost and a pass follows each half period.
pub fn rounds_keep_an_opening()
    ensures { (q n : ℕ) (w : World) → IsUntouched q w → Visited (machine q) (IsOpening q) (rounds q n w) w × IsRested q (run (machine q) (rounds q n w) w) }
{}

/// And nothing dies on the way, and nothing is refused: by no step of the rounds does a node lose the path of a sender, or a name that it has
/// reserved over a hop, and each unit of each Resv that arrives stands as it was asked for.
pub fn rounds_lose_nothing()
    ensures { (q n : ℕ) (w : World) → IsUntouched q w → NothingIsLost q (rounds q n w) w }
{}

/// A network of which nothing was asked yet is fresh.
pub fn an_empty_network_is_fresh()
    ensures { (q : ℕ) (w : World) → IsEmpty q w → IsFresh q w }
{}

/// And so it stays while, before anything is delivered, hosts begin to send, each as a sender that its node does not have yet and to a group,
/// and receivers ask, none of them for a confirmation, whether or not a call is refused.
pub fn a_call_keeps_a_network_fresh()
    ensures { (q n : ℕ) (l : Local) (w : World) → IsFresh q w → IsFirstCall w n l → IsFresh q (step q (At n l) w) }
{}

/// So where what was asked for fits in the end, and hosts are as they may be (each sends from an address of its node and to a group, and senders
/// and sessions are few enough), the network is untouched, so that it opens (`an_untouched_network_opens`).
pub fn a_fresh_network_is_untouched()
    ensures { (q : ℕ) (w : World) → IsFresh q w → AreHosts w → DemandsFit w.net (locals_of w) → IsUntouched q w }
{}
