//! The laws.
ghost use Rattle.std.specs.Prelude.{◌≡◌, ◌*◌, ◌<◌, ℕ, [], length, true};
ghost use Rattle.rsvp_base.specs.declared.session.Sender.{Sender};
ghost use Rattle.rsvp_base.specs.declared.session.Session.{Session};
ghost use Rattle.rsvp_base.specs.declared.style.StyleKind.{StyleKind};
ghost use Rattle.rsvp_base.specs.declared.style.StyleKind.TheVariants.{Fixed};
ghost use Rattle.rsvp_base.specs.Members.{In};
ghost use Rattle.rsvp_base.specs.Orders.{Names};
ghost use Rattle.rsvp_base.specs.TokenBucket.{IsSound, TokenBucket};
ghost use Rattle.calm_rounds.specs.Machine.{Happens};
ghost use Rattle.router_rules.specs.Steps.{IsFitList};
ghost use Rattle.tree_model.specs.Goals.{DemandsFit};
ghost use Rattle.tree_model.specs.Networks.{node_of};
ghost use Rattle.tree_model.specs.Ranks.{longest};
ghost use Rattle.network_model.specs.Bounds.{AreBounds, AreHosts};
ghost use Rattle.network_model.specs.Events.{passes};
ghost use Rattle.network_model.specs.Locals.{locals_of};
ghost use Rattle.network_model.specs.Steps.{machine};
ghost use Rattle.network_model.specs.Worlds.{Item, World};
ghost use Rattle.settle_network.specs.Settled.{HasSettled};
ghost use Rattle.settle_passes.specs.Reserving.{AsksNoLess, IsReserving, after_want};
ghost use Rattle.settle_confirmations.specs.Requests.{ComeByOneEnd, IsAnswered, IsAnsweredForOne, IsConfirmed, IsForAtLeast, IsOnlySender, IsRequest};

/// Requests for a confirmation are answered: in a network that sets up the reservations of a session with one sender, and in which all that
/// is in flight are requests of one end, for each of them a ResvConf comes to that end within 2 H passes, speaks of the sender, and confirms
/// at least what the request asks for. H is the length of the longest chain: the request goes up one hop a pass until nothing new is to be
/// asked for, and the ResvConf comes down one hop a pass.
pub fn requests_are_answered()
    ensures { (q : ℕ) (s : Session) (st : StyleKind) (x : Sender) (flow : TokenBucket) (e : ℕ) (w : World) → IsReserving q s w → IsOnlySender w s x → e < length w.net.ends
        → (y : Item) → In y w.flight → IsForAtLeast flow y → ((z : Item) → In z w.flight → IsRequest w s st e z)
        → Happens (machine q) (IsAnswered s st x flow e) (passes q (2 * longest w.net) w) w }
{}

/// So a receiver that asks for a confirmation gets one within 2 H passes, whatever its style, and it confirms at least what the receiver asks
/// for: in a settled network within bounds with hosts, in which nothing is in flight, where the session has one sender, the receiver asks for
/// no less than its node did before, after the call the demands fit, as they then did before, and its node sends something for the call.
/// Where it sends nothing, as for what it has already, nobody answers; nor always where the session has two senders, of one host or of two.
pub fn a_receiver_is_answered()
    ensures { (q n : ℕ) (s : Session) (st : StyleKind) (names : Names) (flow : TokenBucket) (x : Sender) (w : World) → AreBounds q w → AreHosts w → HasSettled q w
        → w.flight ≡ [] → IsOnlySender w s x → IsFitList st names → IsSound flow → AsksNoLess w n s st names flow true → DemandsFit w.net (locals_of (after_want q n s st names flow true w))
        → (y : Item) → In y (after_want q n s st names flow true w).flight
        → (e : ℕ) × (node_of w.net.ends e ≡ n)
        × Happens (machine q) (IsAnswered s st x flow e) (passes q (2 * longest w.net) (after_want q n s st names flow true w)) (after_want q n s st names flow true w) }
{}

/// And what is confirmed is held, all along: under the same premises an answer comes within 2 H passes to the end by which the sender's path
/// comes, in a network that has settled again, and in which over each hop of the way from the sender to this end a reservation of the sender
/// has at least what the receiver asks for. So each book is then the demand, and what the receiver learns is not only of the router that
/// answered it.
pub fn what_is_confirmed_is_held()
    ensures { (q n : ℕ) (s : Session) (st : StyleKind) (names : Names) (flow : TokenBucket) (x : Sender) (w : World) → AreBounds q w → AreHosts w → HasSettled q w
        → w.flight ≡ [] → IsOnlySender w s x → IsFitList st names → IsSound flow → AsksNoLess w n s st names flow true → DemandsFit w.net (locals_of (after_want q n s st names flow true w))
        → (y : Item) → In y (after_want q n s st names flow true w).flight
        → (e : ℕ) × (node_of w.net.ends e ≡ n)
        × Happens (machine q) (IsConfirmed q s st x flow e) (passes q (2 * longest w.net) (after_want q n s st names flow true w)) (after_want q n s st names flow true w) }
{}

/// With a fixed filter a receiver may ask for several senders at once, and for one of them at least it is answered within 2 H passes: in a
/// settled network within bounds with hosts, in which nothing is in flight, where the paths of these senders that come to its node come by
/// one end, the receiver asks for no less than its node did before, after the call the demands fit, as they then did before, and its node
/// sends something for the call. The ResvConf comes to that end, for its address, and confirms one of these senders with at least what the
/// receiver asks for, whoever else sends and whatever other receivers want. The other senders of the call it need not confirm: of one for
/// which nothing new goes on, as of one that stands already further up, it may say nothing.
pub fn a_fixed_filter_is_answered()
    ensures { (q n : ℕ) (s : Session) (names : Names) (flow : TokenBucket) (e : ℕ) (w : World) → AreBounds q w → AreHosts w → HasSettled q w → w.flight ≡ []
        → ComeByOneEnd w n s names e → IsFitList Fixed names → IsSound flow → AsksNoLess w n s Fixed names flow true → DemandsFit w.net (locals_of (after_want q n s Fixed names flow true w))
        → (y : Item) → In y (after_want q n s Fixed names flow true w).flight
        → Happens (machine q) (IsAnsweredForOne s names flow e) (passes q (2 * longest w.net) (after_want q n s Fixed names flow true w)) (after_want q n s Fixed names flow true w) }
{}
