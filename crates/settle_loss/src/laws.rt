//! The laws.
ghost use Rattle.rsvp_base.specs.declared.part.Part.{Part};
ghost use Rattle.rsvp_base.specs.declared.session.Session.{Session};
ghost use Rattle.rsvp_base.specs.Members.{In};
ghost use Rattle.calm_rounds.specs.SoftStates.{Stands};
ghost use Rattle.tree_model.specs.Trees.{hops_of};
ghost use Rattle.settle_resvs.specs.Said.{HopKey, hop_over, IsSaid, resv_key};
ghost use Rattle.settle_resvs.specs.Sessions.{HasNoFlowErrorOf, IsFreeOfBlockadesOf, SessionFits, TakesAllOf};
ghost use Rattle.settle_resvs.specs.SoftResvs.{soft_resv};
ghost use Rattle.settle_network.specs.Purged.{HasNothingStale};
ghost use Rattle.settle_network.specs.Sessions.{HasSettledFor};
ghost use Rattle.settle_network.specs.Settled.{HasSettled};
ghost use Rattle.settle_loss.specs.RefreshedResvs.{AreResvsFull, AreResvsRefreshed, DoesResvLast, IsResvRefreshed};
ghost use Rattle.std.specs.Prelude.{◌≡◌, ◌+◌, ◌*◌, ℕ, List, true};
ghost use Rattle.calm_rounds.specs.Rounds.{AreQuiet};
ghost use Rattle.calm_rounds.specs.Hold.{Visited, Hold};
ghost use Rattle.calm_rounds.specs.Windows.{Windows, joined};
ghost use Rattle.tree_model.specs.Ranks.{longest};
ghost use Rattle.network_model.specs.Bounds.{AreBounds, AreHosts, IsStart};
ghost use Rattle.network_model.specs.Locals.{locals_of};
ghost use Rattle.network_model.specs.Sound.{ArePathsComplete, ArePathsSound, AreResvsSound};
ghost use Rattle.network_model.specs.Steps.{Step, is_quiet, machine};
ghost use Rattle.network_model.specs.Worlds.{World};
ghost use Rattle.settle_loss.specs.Example.{ALossyPair, ALeftOverPathInWindows, ALeftOverReservationInWindows};
ghost use Rattle.settle_loss.specs.RefreshedPaths.{ArePathsRefreshed, DoPathsLast, IsInOrder};

/// Paths never die (RFC 2205, 3.7, K = 3): in a network within bounds with hosts, whose paths are sound, where at the end of each hop of a
/// live sender's tree its path stands and lives until the third refresh from now on may arrive, each Path in flight goes to its group for a
/// full lifetime, and no PathTear of a live sender goes over a hop of its tree, paths are sound and complete in each world that quiet steps
/// visit, as long as over each such hop of any three successive Paths one arrives less than 0.75 periods after it was due.
pub fn paths_never_die()
    ensures { (q : ℕ) (w : World) (ss : List Step) → AreHosts w → AreBounds q w → ArePathsSound w → IsInOrder q w → DoPathsLast q w
        → AreQuiet (machine q) ss → ArePathsRefreshed q ss w → Visited (machine q) (λ u. ArePathsSound u × ArePathsComplete u) ss w }
{}

/// Paths become sound in windows: in a network within bounds, 2 H + 1 windows of 5.25 refresh periods or more on, each path says what
/// a live sender's tree says, and so does each Path in flight to an end by which its sender's tree comes, whatever is lost; H is the length
/// of the longest chain.
pub fn paths_become_sound_in_windows()
    ensures { (q : ℕ) (w : World) (rs : List (List Step)) → Windows (machine q) rs w → AreBounds q w → Hold (machine q) (1 + 2 * longest w.net) rs w ArePathsSound }
{}

/// Paths settle in windows: in a network within bounds, 4 H + 1 such windows on, paths are sound and complete, and stay so, whatever
/// nodes kept and whatever was in flight, as long as over each hop of a live sender's tree of any three successive Paths one arrives
/// less than 0.75 periods after it was due.
pub fn paths_settle_in_windows()
    ensures { (q : ℕ) (w : World) (rs : List (List Step)) → Windows (machine q) rs w → AreHosts w → AreBounds q w → ArePathsRefreshed q (joined rs) w
        → Hold (machine q) ((1 + 2 * longest w.net) + 2 * longest w.net) rs w (λ u. ArePathsSound u × ArePathsComplete u) }
{}

/// A reservation over a hop never dies: in a network within bounds, where each Resv in flight at the start is for a full lifetime, and from
/// the start on each Resv of a session and style in flight over a hop of a tree says a part, no ResvTear of them takes a name of it, what
/// arrives is taken whole, the node that asks has something to ask for, and the node that keeps knows the senders of the part, a part that
/// is reserved and lives until the third refresh from now on may arrive is reserved in each world that quiet steps visit, as long as of any
/// three successive Resvs over the hop one arrives less than 0.75 periods after it was due.
pub fn a_reservation_never_dies()
    ensures { (q : ℕ) (w : World) (k : HopKey) (v : Part) → In (hop_over k) (hops_of w.net.hops k.session.group) → (ss : List Step) → AreQuiet (machine q) ss → AreBounds q w
        → AreResvsFull q w → DoesResvLast q w k v → IsResvRefreshed q w.net k ss w → Visited (machine q) (IsSaid q w.net k v 0) ss w
        → Visited (machine q) (Stands (machine q) (soft_resv q w (resv_key w.net k)) v) ss w }
{}

/// One hop settles in windows, for a reservation: whatever was reserved at the start, the part that is said over the hop from then on
/// is reserved two windows on, as long as of any three successive Resvs over the hop one arrives in time.
pub fn said_resvs_are_kept_in_windows()
    ensures { (q : ℕ) (w : World) (k : HopKey) (v : Part) → In (hop_over k) (hops_of w.net.hops k.session.group) → (rs : List (List Step)) → Windows (machine q) rs w
        → AreBounds q w → IsResvRefreshed q w.net k (joined rs) w → Hold (machine q) 0 rs w (IsSaid q w.net k v w.made)
        → Hold (machine q) 2 rs w (Stands (machine q) (soft_resv q w (resv_key w.net k)) v) }
{}

/// Reservations become sound in windows: in a network within bounds, 4 H + 3 windows of 5.25 refresh periods or more on, where H is the length
/// of the longest chain, each path is one of a live sender's tree, and each reservation that a node keeps, of whatever style and next hop,
/// and each unit of each Resv in flight is at most what is wanted over its hop, whatever is lost.
pub fn reservations_become_sound_in_windows()
    ensures { (q : ℕ) (w : World) (rs : List (List Step)) → Windows (machine q) rs w → AreBounds q w
        → Hold (machine q) (3 + 4 * longest w.net) rs w (λ u. ArePathsSound u × AreResvsSound u) }
{}

/// Nothing stale is left, in windows: in a network within bounds, 4 H + 3 windows of 5.25 refresh periods or more on, paths are those of live
/// senders along their trees, reservations lie below the wants, and the book of each end is at most its demand, whatever is lost and whether
/// or not the demands fit. So no book has a session, style or sender that nobody below wants, and no loss keeps one there.
pub fn nothing_stale_is_left_in_windows()
    ensures { (q : ℕ) (w : World) (rs : List (List Step)) → Windows (machine q) rs w → AreBounds q w → Hold (machine q) (3 + 4 * longest w.net) rs w HasNothingStale }
{}

/// Each arrival of a session is taken in windows: in a network within bounds with hosts, where the session fits, 4 H + 3 windows of 5.25
/// refresh periods or more on, each unit of each Resv of the session that arrives stands at its node as it was asked for, whatever other
/// sessions ask for and whatever Resvs are lost, as long as over each hop of a live sender's tree of any three successive Paths one arrives
/// less than 0.75 periods after it was due.
pub fn arrivals_are_taken_in_windows()
    ensures { (q : ℕ) (s : Session) (w : World) (rs : List (List Step)) → Windows (machine q) rs w → AreHosts w → SessionFits w.net (locals_of w) s → AreBounds q w
        → ArePathsRefreshed q (joined rs) w → Hold (machine q) (3 + 4 * longest w.net) rs w (λ u. (t : Step) → is_quiet t ≡ true → TakesAllOf s q t u) }
{}

/// Errors of a session with a flow are gone in windows: in a network within bounds with hosts, where the session fits, 5 H + 4 windows of 5.25
/// refresh periods or more on, no ResvErr of the session with a flow is in flight, whatever Resvs are lost, as long as over each hop of a live
/// sender's tree of any three successive Paths one arrives less than 0.75 periods after it was due.
pub fn errors_are_gone_in_windows()
    ensures { (q : ℕ) (s : Session) (w : World) (rs : List (List Step)) → Windows (machine q) rs w → AreHosts w → SessionFits w.net (locals_of w) s → AreBounds q w
        → ArePathsRefreshed q (joined rs) w → Hold (machine q) (4 + 5 * longest w.net) rs w (HasNoFlowErrorOf s) }
{}

/// Blockades of a session are gone in windows: in a network within bounds with hosts, where the session fits, 5 H + 5 windows of 5.25 refresh
/// periods or more on, no blockade of the session lives, whatever Resvs are lost, as long as over each hop of a live sender's tree of any
/// three successive Paths one arrives less than 0.75 periods after it was due.
pub fn blockades_are_gone_in_windows()
    ensures { (q : ℕ) (s : Session) (w : World) (rs : List (List Step)) → Windows (machine q) rs w → AreHosts w → SessionFits w.net (locals_of w) s → AreBounds q w
        → ArePathsRefreshed q (joined rs) w → Hold (machine q) (5 + 5 * longest w.net) rs w (IsFreeOfBlockadesOf s) }
{}

/// A session settles in windows: in a network within bounds with hosts, where the session fits, 7 H + 5 windows of 5.25 refresh periods or more
/// on, its reservations are exactly its wants, its entries in the book of each end are those of the end's demand, nothing of it is refused,
/// no error of it with a flow is in flight and no blockade of it lives, as long as over each hop of a live sender's tree of any three
/// successive Paths, and over each hop over which something of the session is wanted of any three successive Resvs of its style, one arrives
/// less than 0.75 periods after it was due (RFC 2205, 3.7, K = 3).
pub fn a_session_settles_in_windows()
    ensures { (q : ℕ) (s : Session) (w : World) (rs : List (List Step)) → Windows (machine q) rs w → AreHosts w → SessionFits w.net (locals_of w) s → AreBounds q w
        → ArePathsRefreshed q (joined rs) w → AreResvsRefreshed q s (joined rs) w → Hold (machine q) (5 + 7 * longest w.net) rs w (HasSettledFor q s) }
{}

/// A network settles in windows: from any start, whatever nodes kept and whatever was in flight, on a routing without loops and with demands
/// that fit, 7 H + 5 windows of 5.25 refresh periods or more on it has settled, and it stays so, as long as over each hop of a live sender's
/// tree of any three successive Paths, and over each hop over which something is wanted of any three successive Resvs of its session and
/// style, one arrives less than 0.75 periods after it was due.
pub fn a_network_settles_in_windows()
    ensures { (q : ℕ) (w : World) (rs : List (List Step)) → Windows (machine q) rs w → IsStart q w → ArePathsRefreshed q (joined rs) w
        → ((s : Session) → AreResvsRefreshed q s (joined rs) w) → Hold (machine q) (5 + 7 * longest w.net) rs w (HasSettled q) }
{}

/// A small network meets the premises of `paths_never_die` through 165 seconds in which two of three Paths are lost.
pub fn a_pair_is_lossy()
    ensures { ALossyPair }
{}

/// A left-over path in a small network in which nobody sends meets the premises of the two laws of paths in windows, however many windows
/// there are, and at the start the path is not sound.
pub fn a_path_is_left_over_in_windows()
    ensures { ALeftOverPathInWindows }
{}

/// A left-over reservation, of a next hop that no end has, in a small network in which nobody sends or wants, meets the premises of the laws
/// of a network's reservations in windows, however many windows there are, and at the start it is not sound, and the network has not settled.
pub fn a_reservation_is_left_over_in_windows()
    ensures { ALeftOverReservationInWindows }
{}
