//! The laws.
ghost use Rattle.std.specs.Prelude.{◌≡◌, ℕ, List, [], Bool, false};
ghost use Rattle.rsvp_base.specs.declared.session.Session.{Session};
ghost use Rattle.rsvp_base.specs.declared.style.StyleKind.{StyleKind};
ghost use Rattle.rsvp_base.specs.Orders.{Names};
ghost use Rattle.rsvp_base.specs.TokenBucket.{IsSound, TokenBucket};
ghost use Rattle.router_rules.specs.Steps.{IsFitList};
ghost use Rattle.tree_model.specs.Ranks.{longest};
ghost use Rattle.network_model.specs.Bounds.{IsStart};
ghost use Rattle.network_model.specs.Worlds.{World};
ghost use Rattle.settle_network.specs.Settled.{HasSettled};
ghost use Rattle.settle_passes.specs.Passes.{after_passes};
ghost use Rattle.settle_passes.specs.Reserving.{HasReserved, IsReserving, after_want};
ghost use Rattle.settle_releases.specs.Releases.{AsksNoMore, HasNoMark, after_quits};

/// A settled network has settled again H passes after receivers quit, without waiting: those of one node or of several, one session or
/// more, at the same moment, in a network within bounds with hosts, in which nothing is in flight and whose demands fit. What is held then
/// is what the others want, hop by hop, and nobody waits for a lifetime. H is the length of the longest chain.
pub fn a_settled_network_releases()
    ensures { (q : ℕ) (xs : List (ℕ × Session)) (w : World) → IsStart q w → HasSettled q w → w.flight ≡ [] → HasSettled q (after_passes q (longest w.net) (after_quits q xs w)) }
{}

/// And nothing is in flight then, where no want had a mark in the settled network: where nobody waited for a confirmation to be asked for.
/// So no datagram comes to a node any more until time passes or something happens from outside.
pub fn a_release_leaves_nothing_in_flight()
    ensures { (q : ℕ) (xs : List (ℕ × Session)) (w : World) → IsStart q w → HasSettled q w → w.flight ≡ [] → HasNoMark w
        → (after_passes q (longest w.net) (after_quits q xs w)).flight ≡ [] }
{}

/// So it has H passes after a receiver asks for less: for no more than its node did before, as for a smaller flow, or with a shared filter
/// for fewer senders. With a fixed filter, what its node wants of other senders stays. It need not have where one call asks for less of one
/// sender and for more of another, though all fits before and after (`settle_passes::a_trade_is_refused`).
pub fn a_settled_network_serves_less()
    ensures { (q n : ℕ) (s : Session) (st : StyleKind) (names : Names) (flow : TokenBucket) (confirm : Bool) (w : World) → IsStart q w → HasSettled q w → w.flight ≡ []
        → IsFitList st names → IsSound flow → AsksNoMore w n s st names flow confirm
        → HasSettled q (after_passes q (longest w.net) (after_want q n s st names flow confirm w)) }
{}

/// And nothing is in flight then, where it asks for no confirmation and no want had a mark.
pub fn less_leaves_nothing_in_flight()
    ensures { (q n : ℕ) (s : Session) (st : StyleKind) (names : Names) (flow : TokenBucket) (w : World) → IsStart q w → HasSettled q w → w.flight ≡ [] → HasNoMark w
        → IsFitList st names → IsSound flow → AsksNoMore w n s st names flow false
        → (after_passes q (longest w.net) (after_want q n s st names flow false w)).flight ≡ [] }
{}

/// And the next may quit then, or ask (`settle_passes::a_receiver_is_set_up`): a network that sets up each session and has reserved it, as
/// exactly as it is wanted and with no Resv in flight, does so again H passes after receivers quit. That it is within bounds with hosts, and
/// that each session fits, is in that, before and after.
pub fn a_reserved_network_releases()
    ensures { (q : ℕ) (xs : List (ℕ × Session)) (w : World) → ((s : Session) → IsReserving q s w × HasReserved s w) → (s : Session)
        → IsReserving q s (after_passes q (longest w.net) (after_quits q xs w)) × HasReserved s (after_passes q (longest w.net) (after_quits q xs w)) }
{}

/// So it does after a receiver asks for less. Calls of both kinds may follow one another so, each H passes after the one before.
pub fn a_reserved_network_serves_less()
    ensures { (q n : ℕ) (c : Session) (st : StyleKind) (names : Names) (flow : TokenBucket) (confirm : Bool) (w : World) → ((s : Session) → IsReserving q s w × HasReserved s w)
        → IsFitList st names → IsSound flow → AsksNoMore w n c st names flow confirm → (s : Session)
        → IsReserving q s (after_passes q (longest w.net) (after_want q n c st names flow confirm w)) × HasReserved s (after_passes q (longest w.net) (after_want q n c st names flow confirm w)) }
{}
