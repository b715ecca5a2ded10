//! The laws.
ghost use Rattle.std.specs.Prelude.{◌≡◌, ℕ, suc, ◌+◌, ◌*◌, [], true, false};
ghost use Rattle.rsvp_base.specs.declared.session.Session.{Session};
ghost use Rattle.rsvp_base.specs.Members.{In};
ghost use Rattle.rsvp_base.specs.Sets.{with_key};
ghost use Rattle.rsvp_base.specs.TokenBucket.{IsSound, TokenBucket};
ghost use Rattle.calm_rounds.specs.Hold.{Visited};
ghost use Rattle.laws_bounds.specs.Frames.{calls_on_senders};
ghost use Rattle.router_rules.specs.Facts.{SenderKey};
ghost use Rattle.router_rules.specs.Inputs.{Local};
ghost use Rattle.router_rules.specs.Steps.{IsFitCall};
ghost use Rattle.tree_model.specs.declared.hops.LinkHop.{LinkHop};
ghost use Rattle.tree_model.specs.Goals.{DemandsFit};
ghost use Rattle.tree_model.specs.Ranks.{longest};
ghost use Rattle.tree_model.specs.Trees.{tree};
ghost use Rattle.network_model.specs.Bounds.{AreBounds, AreHosts, IsStart};
ghost use Rattle.network_model.specs.Events.{passes};
ghost use Rattle.network_model.specs.Locals.{IsLive, locals_of};
ghost use Rattle.network_model.specs.Sound.{HasNoFlowError, IsFreeOfBlockade, IsPathAt, TakesAll};
ghost use Rattle.network_model.specs.Steps.{At, Step, is_quiet, machine, step};
ghost use Rattle.network_model.specs.Worlds.{World};
ghost use Rattle.settle_adverts.specs.Demanded.{HasSettledAdverts, advertised_senders};
ghost use Rattle.settle_resvs.specs.Sessions.{SessionFits};
ghost use Rattle.settle_network.specs.Settled.{HasSettled};
ghost use Rattle.settle_passes.specs.Calls.{HasItsPaths, IsNew, SendsAt, after_drop, after_send};
ghost use Rattle.settle_passes.specs.Passes.{after_passes};
ghost use Rattle.settle_passes.specs.Reserving.{AreAskedFor, HasReserved, IsReserving};
ghost use Rattle.settle_releases.specs.Releases.{HasNoMark};
ghost use Rattle.settle_senders.specs.Adverts.{AreAdvertising, HasItsAdverts, after_advert};
ghost use Rattle.settle_senders.specs.Ending.{AreAsksOfLive, AreNamesLive, AreNoMoreThanWanted, EndsHoldNoMore, SetNoBlockade, TakesForLive};
ghost use Rattle.settle_senders.specs.Flows.{HasItsFlows, IsTelling};
ghost use Rattle.settle_senders.specs.Following.{IsFollowing};

/// Where paths spread and the reservations of a session follow them, as when a host begins to send where receivers wait, they do so still n
/// passes on. So after each pass no ResvErr of it with a flow is in flight, as of a refusal, and no blockade of it is left.
pub fn reservations_follow_paths()
    ensures { (q n : ℕ) (s : Session) (w : World) → IsFollowing q s w → IsFollowing q s (after_passes q n w) }
{}

/// H passes on paths are there, and each node has asked for what the receivers behind it want, so that reservations rise from there
/// (`settle_passes::reservations_rise_one_hop_a_pass`). H is the length of the longest chain.
pub fn paths_reach_receivers_that_wait()
    ensures { (q : ℕ) (s : Session) (w : World) → IsFollowing q s w → IsReserving q s (after_passes q (longest w.net) w) }
{}

/// So 2 H passes on the reservations of the session are exactly what is wanted, over each hop, and no Resv of it is in flight.
pub fn receivers_that_wait_are_served()
    ensures { (q : ℕ) (s : Session) (w : World) → IsFollowing q s w → IsReserving q s (after_passes q (2 * longest w.net) w) × HasReserved s (after_passes q (2 * longest w.net) w) }
{}

/// Reservations follow paths so where a network sets up a session (`settle_passes::a_settled_session_is_reserved`), whose paths are there.
pub fn a_reserving_session_follows()
    ensures { (q : ℕ) (s : Session) (w : World) → IsReserving q s w → IsFollowing q s w }
{}

/// And so they do when a host begins to send, for this session or another: where nobody sends as this sender yet, senders are few enough after
/// the call and send to groups, and the session fits. So the next host may begin before the path of the first is there, and 2 H passes from
/// the last all are served.
pub fn a_new_sender_is_followed()
    ensures { (q n : ℕ) (s : Session) (k : SenderKey) (t : TokenBucket) (w : World) → IsFollowing q s w → IsSound t → IsNew w k → AreHosts (after_send q n k t w)
        → SessionFits w.net (locals_of (after_send q n k t w)) s → IsFollowing q s (after_send q n k t w) }
{}

/// Where the reservations of every session follow paths so, the network has settled 2 H passes on: reservations are the wants, and the book of
/// each end is its demand.
pub fn a_following_network_settles()
    ensures { (q : ℕ) (w : World) → ((s : Session) → IsFollowing q s w) → HasSettled q (after_passes q (2 * longest w.net) w) }
{}

/// So a settled network has settled again 2 H passes after a host begins to send where receivers wait, without waiting: one within bounds with
/// hosts, in which nothing is in flight, where nobody sent as this sender, and where after the call senders are few enough and send to groups,
/// and the demands fit, as they then did before. In the first H passes the path goes down, and in the next H reservations go up.
pub fn a_settled_network_serves_a_sender()
    ensures { (q n : ℕ) (k : SenderKey) (t : TokenBucket) (w : World) → AreBounds q w → AreHosts w → HasSettled q w → w.flight ≡ [] → IsSound t → IsNew w k
        → AreHosts (after_send q n k t w) → DemandsFit w.net (locals_of (after_send q n k t w)) → HasSettled q (after_passes q (2 * longest w.net) (after_send q n k t w)) }
{}

/// And nothing is in flight then, where no want had a mark in the settled network: where nobody waited for a confirmation to be asked for. So
/// nothing comes to a node any more until a refresh is due or somebody calls.
pub fn a_sender_leaves_nothing_in_flight()
    ensures { (q n : ℕ) (k : SenderKey) (t : TokenBucket) (w : World) → AreBounds q w → AreHosts w → HasSettled q w → w.flight ≡ [] → HasNoMark w → IsSound t → IsNew w k
        → AreHosts (after_send q n k t w) → DemandsFit w.net (locals_of (after_send q n k t w)) → (after_passes q (2 * longest w.net) (after_send q n k t w)).flight ≡ [] }
{}

/// A network within bounds with hosts, in which advertisements have settled and nothing is in flight, has its adverts: its paths are there, each
/// of an advertised sender keeps the advertisement of its way, and each other path none.
pub fn settled_adverts_are_there()
    ensures { (q : ℕ) (w : World) → AreHosts w → HasSettledAdverts q w → w.flight ≡ [] → HasItsAdverts q w }
{}

/// And where it has its adverts, they have settled: so an `adverts` line writes what is demanded (`settle_adverts::settled_adverts_are_demanded`).
pub fn adverts_that_are_there_have_settled()
    ensures { (q : ℕ) (w : World) → HasItsAdverts q w → HasSettledAdverts q w }
{}

/// In a network that has its adverts, over each hop of a sender's tree what the node before it says of the sender stands behind it once all that
/// is on its way has arrived.
pub fn adverts_that_are_there_are_said()
    ensures { (q : ℕ) (w : World) → HasItsAdverts q w → AreAdvertising q w }
{}

/// That goes on so when a host begins to send: where nobody sends as this sender yet, and senders are few enough after the call and send to
/// groups.
pub fn a_new_sender_is_said()
    ensures { (q n : ℕ) (k : SenderKey) (t : TokenBucket) (w : World) → AreAdvertising q w → IsSound t → IsNew w k → AreHosts (after_send q n k t w) → AreAdvertising q (after_send q n k t w) }
{}

/// And when a host advertises, and when a receiver asks or quits: by each call that is neither one to send nor one to end, whether or not it is
/// refused. Of a host that sends already and says another flow see `a_new_flow_leaves_adverts`.
pub fn an_advert_is_said()
    ensures { (q n : ℕ) (l : Local) (w : World) → AreAdvertising q w → IsFitCall l → calls_on_senders l ≡ false → AreAdvertising q (step q (At n l) w) }
{}

/// And by passes: so the next call may come before what the first one changed is known.
pub fn adverts_are_said_still()
    ensures { (q n : ℕ) (w : World) → AreAdvertising q w → AreAdvertising q (after_passes q n w) }
{}

/// H passes from the last call on the network has its adverts; H is the length of the longest chain.
pub fn adverts_are_set_up()
    ensures { (q : ℕ) (w : World) → AreAdvertising q w → HasItsAdverts q (after_passes q (longest w.net) w) }
{}

/// So when a host advertises, in a network that has its adverts, as one in which they have settled and nothing is in flight, the network has its
/// adverts again H passes on, without waiting: each path of the sender, if the call is not refused, keeps the advertisement of its way, and no
/// Path is in flight. Where the call is refused nothing changes.
pub fn an_advert_is_set_up()
    ensures { (q n : ℕ) (k : SenderKey) (w : World) → HasItsAdverts q w → HasItsAdverts q (after_passes q (longest w.net) (after_advert q n k w)) }
{}

/// And where the host sends as this sender, that is advertised then: the senders that are advertised are those of before and this one, and so
/// it stays pass by pass. So it is whatever the paths keep yet, as where the host began to send just before.
pub fn an_advert_is_taken()
    ensures { (q n m : ℕ) (k : SenderKey) (w : World) → AreAdvertising q w → SendsAt w n k
        → advertised_senders (after_passes q m (after_advert q n k w)) ≡ with_key (advertised_senders w) k }
{}

/// And when a host begins to send as a sender that nobody was, to a group, where few enough send then, and advertises it at once, no pass
/// between: H passes on the network has its adverts again, so that each path of the sender is there, and keeps the advertisement of its way
/// where neither call is refused.
pub fn a_new_sender_is_advertised()
    ensures { (q n : ℕ) (k : SenderKey) (t : TokenBucket) (w : World) → HasItsAdverts q w → IsSound t → IsNew w k → AreHosts (after_send q n k t w)
        → HasItsAdverts q (after_passes q (longest w.net) (after_advert q n k (after_send q n k t w))) }
{}

/// And what is reserved is then what it was: when a host advertises in a settled network within bounds with hosts, in which nothing is in flight
/// and whose demands fit, the network has settled again H passes on, and after each pass from then on, so that each book is its demand, which
/// depends on the routing, who sends and what is wanted alone. Of the passes before the last of these H it says nothing.
pub fn an_advert_leaves_reservations()
    ensures { (q n m : ℕ) (k : SenderKey) (w : World) → IsStart q w → HasSettled q w → w.flight ≡ [] → HasSettled q (after_passes q (m + longest w.net) (after_advert q n k w)) }
{}

/// And where reservations follow paths they do so still when a host advertises, for this session or another.
pub fn an_advert_is_followed()
    ensures { (q n : ℕ) (s : Session) (k : SenderKey) (w : World) → IsFollowing q s w → IsFollowing q s (after_advert q n k w) }
{}

/// So both go together: when a host begins to send where receivers wait, and advertises at once, in a settled network that has its adverts and
/// in which nothing is in flight, 2 H passes on the network has settled again, and has its adverts.
pub fn a_settled_network_serves_an_advertised_sender()
    ensures { (q n : ℕ) (k : SenderKey) (t : TokenBucket) (w : World) → HasItsAdverts q w → HasSettled q w → w.flight ≡ [] → IsSound t → IsNew w k
        → AreHosts (after_send q n k t w) → DemandsFit w.net (locals_of (after_send q n k t w))
        → HasSettled q (after_passes q (2 * longest w.net) (after_advert q n k (after_send q n k t w)))
        × HasItsAdverts q (after_passes q (2 * longest w.net) (after_advert q n k (after_send q n k t w))) }
{}

/// When a host ends where receivers have what it sends, no node ever keeps more than was wanted before: from a settled network within bounds
/// with hosts, in which nothing is in flight, each reservation is at most what was wanted over its hop, with the sender, and no end holds
/// more than its demand was. So it is in each world on the way through however many passes, behind each delivery.
pub fn a_sender_that_ends_asks_for_no_more()
    ensures { (q n i : ℕ) (d : SenderKey) (w : World) → AreBounds q w → AreHosts w → HasSettled q w → w.flight ≡ [] → SendsAt w n d
        → Visited (machine q) (λ u. AreNoMoreThanWanted w u × EndsHoldNoMore w u) (passes q i (after_drop q n d w)) (after_drop q n d w) }
{}

/// From H passes on after a host ends, behind each delivery, each name that a reservation has is that of a sender that sends: with a wildcard
/// filter its address, which another sender may share with the one that ended. Paths are those of the others then, and no PathTear is in
/// flight.
pub fn a_sender_that_ends_is_named_no_more()
    ensures { (q n i : ℕ) (d : SenderKey) (w : World) → AreBounds q w → AreHosts w → HasSettled q w → w.flight ≡ [] → SendsAt w n d
        → Visited (machine q) (λ u. HasItsPaths q u × AreNamesLive u) (passes q i (after_passes q (longest w.net) (after_drop q n d w)))
        (after_passes q (longest w.net) (after_drop q n d w)) }
{}

/// From H + 1 passes on after a host ends, behind each delivery, each name of a Resv in flight is that of a sender that sends, in the same way.
pub fn a_sender_that_ends_is_asked_for_no_more()
    ensures { (q n i : ℕ) (d : SenderKey) (w : World) → AreBounds q w → AreHosts w → HasSettled q w → w.flight ≡ [] → SendsAt w n d
        → Visited (machine q) AreAsksOfLive (passes q i (after_passes q (longest w.net + 1) (after_drop q n d w))) (after_passes q (longest w.net + 1) (after_drop q n d w)) }
{}

/// And nothing is refused then, where the demands fitted before: from H + 1 passes on, behind each delivery, the Resv that arrives next is
/// taken whole, whichever of those in flight it is. Before that a router may answer with an error for the sender that ended, where a Resv
/// overtakes the PathTear.
pub fn what_is_asked_for_then_is_taken()
    ensures { (q n i : ℕ) (d : SenderKey) (w : World) → IsStart q w → HasSettled q w → w.flight ≡ [] → SendsAt w n d
        → Visited (machine q) (λ u. (t : Step) → is_quiet t ≡ true → TakesAll q t u) (passes q i (after_passes q (longest w.net + 1) (after_drop q n d w)))
        (after_passes q (longest w.net + 1) (after_drop q n d w)) }
{}

/// In a network that has its paths, each with the flow that its sender sends, and in which no Path is in flight, over each hop of a sender's tree
/// the flow that the node before it says stands behind it once all that is on its way has arrived.
pub fn flows_that_are_there_are_said()
    ensures { (q : ℕ) (w : World) → HasItsFlows q w → IsTelling q w }
{}

/// That goes on so when a host that sends already says another flow, whether or not the one before is known everywhere yet.
pub fn a_new_flow_is_said()
    ensures { (q n : ℕ) (k : SenderKey) (t : TokenBucket) (w : World) → IsTelling q w → IsSound t → SendsAt w n k → IsTelling q (after_send q n k t w) }
{}

/// And by each call that is neither one to send nor one to end, as when a receiver asks or quits, or a host advertises, whether or not it is
/// refused.
pub fn a_call_is_told()
    ensures { (q n : ℕ) (l : Local) (w : World) → IsTelling q w → IsFitCall l → calls_on_senders l ≡ false → IsTelling q (step q (At n l) w) }
{}

/// And by passes: so the next call may come before what the first one changed is known.
pub fn flows_are_said_still()
    ensures { (q n : ℕ) (w : World) → IsTelling q w → IsTelling q (after_passes q n w) }
{}

/// H passes from the last call on each path keeps the flow that its sender sends, and no Path is in flight; H is the length of the longest chain.
pub fn flows_are_set_up()
    ensures { (q : ℕ) (w : World) → IsTelling q w → HasItsFlows q (after_passes q (longest w.net) w) }
{}

/// So when a host that sends says another flow, in a network that has its paths and in which no Path is in flight, H passes on each path keeps the
/// flow that its sender sends, the new one with the others, and no Path is in flight, without waiting (RFC 2205, 2.3).
pub fn a_new_flow_is_set_up()
    ensures { (q n : ℕ) (k : SenderKey) (t : TokenBucket) (w : World) → HasItsFlows q w → IsSound t → SendsAt w n k
        → HasItsFlows q (after_passes q (longest w.net) (after_send q n k t w)) }
{}

/// And the call is not refused, so that each path of the sender keeps the new flow then: there is one at each hop of its tree.
pub fn a_new_flow_is_kept()
    ensures { (q n : ℕ) (k : SenderKey) (t : TokenBucket) (w : World) → HasItsFlows q w → IsSound t → SendsAt w n k
        → (h : LinkHop) → In h (tree w.net.hops k.0.group k.1.addr) → IsPathAt (after_passes q (longest w.net) (after_send q n k t w)) k t h }
{}

/// And each path of another sender keeps the flow that it kept, by the same hop.
pub fn other_flows_are_kept()
    ensures { (q n : ℕ) (k : SenderKey) (t : TokenBucket) (w : World) → HasItsFlows q w → IsSound t → SendsAt w n k
        → (j : SenderKey) (v : TokenBucket) (h : LinkHop) → (j ≡ k → ⊥) → IsLive w j v → In h (tree w.net.hops j.0.group j.1.addr)
        → IsPathAt (after_passes q (longest w.net) (after_send q n k t w)) j v h }
{}

/// And what is reserved is what it was: where the network had settled and nothing was in flight, it has settled again H passes after the host says
/// another flow, and nothing is in flight. So each book is its demand, which depends on who sends and what is wanted, and on no flow that is sent.
/// That the demands fit is not asked for: each end has room for its demand, since that is its book.
pub fn a_new_flow_leaves_reservations()
    ensures { (q n : ℕ) (k : SenderKey) (t : TokenBucket) (w : World) → AreBounds q w → AreHosts w → HasSettled q w → w.flight ≡ [] → IsSound t → SendsAt w n k
        → HasSettled q (after_passes q (longest w.net) (after_send q n k t w)) × ((after_passes q (longest w.net) (after_send q n k t w)).flight ≡ []) }
{}

/// And what paths keep of adverts: a network that has its adverts has them again H passes after a host that sends says another flow.
pub fn a_new_flow_leaves_adverts()
    ensures { (q n : ℕ) (k : SenderKey) (t : TokenBucket) (w : World) → HasItsAdverts q w → IsSound t → SendsAt w n k
        → HasItsAdverts q (after_passes q (longest w.net) (after_send q n k t w)) }
{}

/// While a sender that ended is forgotten, nothing is refused for want of room, where the demands fitted before: behind each delivery no node has
/// a blockade, and no ResvErr in flight sets one.
pub fn a_sender_that_ends_sets_no_blockade()
    ensures { (q n i : ℕ) (d : SenderKey) (w : World) → IsStart q w → HasSettled q w → w.flight ≡ [] → SendsAt w n d
        → Visited (machine q) (λ u. SetNoBlockade u × IsFreeOfBlockade u) (passes q i (after_drop q n d w)) (after_drop q n d w) }
{}

/// From 2 H + 1 passes on, behind each delivery, no ResvErr with a flow is in flight, where the demands fitted before: what was refused for the
/// sender has been told to all whom it reaches. An error goes on over one hop a pass, and none is made from H + 1 passes on.
pub fn a_sender_that_ends_leaves_no_error()
    ensures { (q n i : ℕ) (d : SenderKey) (w : World) → IsStart q w → HasSettled q w → w.flight ≡ [] → SendsAt w n d
        → Visited (machine q) HasNoFlowError (passes q i (after_passes q (2 * longest w.net + 1) (after_drop q n d w)))
        (after_passes q (2 * longest w.net + 1) (after_drop q n d w)) }
{}

/// And each Resv that arrives is taken for those that send: when the host ends, and behind each delivery from then on, whichever Resv of those in
/// flight arrives next, the reservation of each unit of it that lists such a name has it afterwards, and the flow that was asked for. So what
/// may be left out is the sender that ended.
pub fn what_is_asked_for_others_is_taken()
    ensures { (q n i : ℕ) (d : SenderKey) (w : World) → IsStart q w → HasSettled q w → w.flight ≡ [] → SendsAt w n d
        → Visited (machine q) (λ u. (t : Step) → is_quiet t ≡ true → TakesForLive q t u) (passes q i (after_drop q n d w)) (after_drop q n d w) }
{}

/// And from H + 1 passes on, behind each delivery, each node has asked for what goes from it: over each hop it stands behind it, and nothing on its
/// way there asks for anything else; or it is asked for on its way, and nothing that was sent later asks for anything else.
pub fn what_goes_then_is_asked_for()
    ensures { (q n i : ℕ) (s : Session) (d : SenderKey) (w : World) → IsStart q w → HasSettled q w → w.flight ≡ [] → SendsAt w n d
        → Visited (machine q) (λ u. AreAskedFor q s u) (passes q i (after_passes q (longest w.net + 1) (after_drop q n d w)))
        (after_passes q (longest w.net + 1) (after_drop q n d w)) }
{}

/// So from a settled network within bounds with hosts, in which nothing is in flight and whose demands fit, the network has settled again 2 H + 1
/// passes after a host ends, and after each pass from then on: the book of each end is its demand, without the sender.
pub fn a_settled_network_lets_a_sender_go()
    ensures { (q n i : ℕ) (d : SenderKey) (w : World) → IsStart q w → HasSettled q w → w.flight ≡ [] → SendsAt w n d
        → HasSettled q (after_passes q (2 * longest w.net + suc i) (after_drop q n d w)) }
{}

/// And nothing is in flight then, where no want had a mark in the settled network: where nobody waited for a confirmation to be asked for. So
/// nothing comes to a node any more until a refresh is due or somebody calls.
pub fn a_sender_that_ends_leaves_nothing_in_flight()
    ensures { (q n i : ℕ) (d : SenderKey) (w : World) → IsStart q w → HasSettled q w → w.flight ≡ [] → HasNoMark w → SendsAt w n d
        → (after_passes q (2 * longest w.net + suc i) (after_drop q n d w)).flight ≡ [] }
{}
