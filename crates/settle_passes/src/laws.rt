//! The laws.
ghost use Rattle.std.specs.Prelude.{◌≡◌, ℕ, Bool, []};
ghost use Rattle.rsvp_base.specs.declared.session.Session.{Session};
ghost use Rattle.rsvp_base.specs.declared.style.StyleKind.{StyleKind};
ghost use Rattle.rsvp_base.specs.Orders.{Names};
ghost use Rattle.rsvp_base.specs.TokenBucket.{IsSound, TokenBucket};
ghost use Rattle.router_rules.specs.Facts.{SenderKey};
ghost use Rattle.router_rules.specs.Steps.{IsFitList};
ghost use Rattle.tree_model.specs.Goals.{DemandsFit};
ghost use Rattle.tree_model.specs.Ranks.{longest};
ghost use Rattle.network_model.specs.Bounds.{AreBounds, AreHosts};
ghost use Rattle.network_model.specs.Locals.{locals_of};
ghost use Rattle.network_model.specs.Sound.{ArePathsComplete, ArePathsSound, AreResvsSound};
ghost use Rattle.network_model.specs.Worlds.{World};
ghost use Rattle.settle_passes.specs.Calls.{HasItsPaths, HasNoPathOf, IsNew, SendsAt, after_drop, after_send};
ghost use Rattle.settle_passes.specs.Passes.{AreCompleteTo, AreSpreading, after_passes};
ghost use Rattle.settle_passes.specs.Reserving.{AreExactUpTo, AsksNoLess, HasReserved, IsReserving, after_want};
ghost use Rattle.settle_resvs.specs.Sessions.{AreExactOf, IsFreeOfBlockadesOf, SessionFits};
ghost use Rattle.settle_network.specs.Settled.{HasSettled};

/// Paths spread one hop a pass: in a network within bounds with hosts, where paths are sound, each node has offered what it knows and
/// nothing is torn down, n passes on each live sender has its path at each hop of its tree to a node that is n hops from its own at most.
pub fn paths_spread_one_hop_a_pass()
    ensures { (q n : ℕ) (w : World) → AreSpreading q w → AreSpreading q (after_passes q n w) × AreCompleteTo n (after_passes q n w) }
{}

/// So H passes on paths are sound and complete; H is the length of the longest chain.
pub fn paths_are_set_up()
    ensures { (q : ℕ) (w : World) → AreSpreading q w → ArePathsSound (after_passes q (longest w.net) w) × ArePathsComplete (after_passes q (longest w.net) w) }
{}

/// A new sender is known along its tree after H passes, without waiting: from a network that has its paths, as a settled one has in which
/// nothing is in flight, when a host begins to send as a sender that nobody was, to a group, and few enough send then, paths are sound and
/// complete again H passes on, and nothing tears one down. No time goes by; what goes up the trees meanwhile, and whether it is refused,
/// makes no difference.
pub fn a_new_sender_is_set_up()
    ensures { (q n : ℕ) (k : SenderKey) (t : TokenBucket) (w : World) → HasItsPaths q w → IsSound t → IsNew w k → AreHosts (after_send q n k t w)
        → HasItsPaths q (after_passes q (longest w.net) (after_send q n k t w)) }
{}

/// A sender that ends is forgotten after H passes, without waiting: from a network that has its paths, with no Path of the sender in
/// flight, when the host at the node ends to send as it, paths are sound and complete again H passes on, so no node has a path of it,
/// and no PathTear is in flight any more. Nobody waits for a lifetime.
pub fn an_ended_sender_is_forgotten()
    ensures { (q n : ℕ) (d : SenderKey) (w : World) → HasItsPaths q w → SendsAt w n d → HasNoPathOf w d → AreHosts (after_drop q n d w)
        → HasItsPaths q (after_passes q (longest w.net) (after_drop q n d w)) }
{}

/// Reservations rise one hop a pass: where paths are there, no reservation or Resv of any session says more than is wanted, a session fits,
/// nothing of it is refused or blockaded, and each node has asked for what goes from it, n passes on each reservation of the session is
/// exactly what is wanted over each hop from which no chain is longer than n. What is wanted does not change meanwhile, and it goes on so.
pub fn reservations_rise_one_hop_a_pass()
    ensures { (q n : ℕ) (s : Session) (w : World) → IsReserving q s w → IsReserving q s (after_passes q n w) × AreExactUpTo s n (after_passes q n w) }
{}

/// So H passes on the reservations of the session are exactly what is wanted, over each hop, and no Resv of it is in flight.
pub fn reservations_are_set_up()
    ensures { (q : ℕ) (s : Session) (w : World) → IsReserving q s w → HasReserved s (after_passes q (longest w.net) w) }
{}

/// It begins so in a network that has its paths and in which nothing is in flight, as a settled one: where no reservation of any session
/// says more than is wanted, and those of a session are exact, it fits, and none of its blockades lives.
pub fn a_settled_session_is_reserved()
    ensures { (q : ℕ) (s : Session) (w : World) → HasItsPaths q w → AreResvsSound w → SessionFits w.net (locals_of w) s → IsFreeOfBlockadesOf s w → AreExactOf s w → w.flight ≡ []
        → IsReserving q s w }
{}

/// A receiver that asks is set up in H passes, without waiting: in a network that sets up a session so, where it asks for no less than its
/// node did before, as a new receiver or one that wants a larger flow, and the session fits then, the reservations of the session are exact
/// along the whole way H passes on. The next may ask before these have passed, for this session or another, at this node or another: what
/// it takes is H passes from the last. Whether a call is refused, and whether it asks to be confirmed, makes no difference.
pub fn a_receiver_is_set_up()
    ensures { (q n : ℕ) (s called : Session) (st : StyleKind) (names : Names) (flow : TokenBucket) (confirm : Bool) (w : World) → IsReserving q s w → IsFitList st names → IsSound flow
        → AsksNoLess w n called st names flow confirm → SessionFits w.net (locals_of (after_want q n called st names flow confirm w)) s
        → IsReserving q s (after_want q n called st names flow confirm w) × HasReserved s (after_passes q (longest w.net) (after_want q n called st names flow confirm w)) }
{}

/// A network that reserves every session so has settled H passes on: reservations are the wants, and the book of each end is its demand.
pub fn a_reserving_network_settles()
    ensures { (q : ℕ) (w : World) → ((s : Session) → IsReserving q s w) → HasSettled q (after_passes q (longest w.net) w) }
{}

/// So a settled network has settled again H passes after a receiver asks, without waiting: one within bounds with hosts, in which nothing is
/// in flight, where the receiver asks for no less than its node did before for the session, and after the call the demands fit, as they
/// then did before.
pub fn a_settled_network_serves_a_receiver()
    ensures { (q n : ℕ) (s : Session) (st : StyleKind) (names : Names) (flow : TokenBucket) (confirm : Bool) (w : World) → AreBounds q w → AreHosts w → HasSettled q w → w.flight ≡ []
        → IsFitList st names → IsSound flow → AsksNoLess w n s st names flow confirm → DemandsFit w.net (locals_of (after_want q n s st names flow confirm w))
        → HasSettled q (after_passes q (longest w.net) (after_want q n s st names flow confirm w)) }
{}
