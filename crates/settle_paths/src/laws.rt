//! The laws.
ghost use Rattle.std.specs.Prelude.{◌≡◌, ◌+◌, ◌*◌, ◌<◌, ◌≤◌, ℕ, suc, List, Bool, true, length};
ghost use Rattle.rsvp_base.specs.Members.{In};
ghost use Rattle.rsvp_base.specs.TokenBucket.{TokenBucket};
ghost use Rattle.tree_model.specs.Goals.{addr_of};
ghost use Rattle.tree_model.specs.declared.hops.LinkHop.{LinkHop};
ghost use Rattle.tree_model.specs.Networks.{node_of};
ghost use Rattle.tree_model.specs.Ranks.{longest};
ghost use Rattle.tree_model.specs.Trees.{tree, depth};
ghost use Rattle.tree_model.specs.Valid.{IsValid};
ghost use Rattle.calm_rounds.specs.Hold.{Hold};
ghost use Rattle.calm_rounds.specs.SoftStates.{KeepsOnly, SaysOnly, Stands};
ghost use Rattle.calm_rounds.specs.Rounds.{Rounds};
ghost use Rattle.router_rules.specs.Facts.{SenderKey};
ghost use Rattle.network_model.specs.Bounds.{AreBounds, AreHosts};
ghost use Rattle.network_model.specs.Links.{is_group};
ghost use Rattle.network_model.specs.Locals.{IsLive};
ghost use Rattle.network_model.specs.Sound.{ArePathsComplete, ArePathsSound};
ghost use Rattle.network_model.specs.Steps.{Step, machine};
ghost use Rattle.network_model.specs.Worlds.{World};
ghost use Rattle.settle_paths.specs.Example.{APathIsLeftOver, MeetsThePremises};
ghost use Rattle.settle_paths.specs.SoftPaths.{PathValue, soft_path};
ghost use Rattle.settle_paths.specs.PreviousHops.{ArePreviousHops, AreAllPreviousHops};
ghost use Rattle.settle_paths.specs.Said.{IsSaidPath};
ghost use Rattle.settle_paths.specs.Sure.{IsSureOfPaths};
ghost use Rattle.settle_paths.specs.Telling.{IsSure};

/// One hop settles, for a Path: in a network within bounds, where all Paths of a sender that are sent over a hop from now on
/// say what is allowed, from the fifth calm round on the path there is one that is allowed, and the Paths in flight say only
/// that.
pub fn only_said_paths_are_kept()
    ensures { (q : ℕ) (w : World) (k : SenderKey) (e : ℕ) → e < length w.net.ends → (allowed : PathValue → Bool) (rs : List (List Step)) → Rounds (machine q) rs w → AreBounds q w
        → Hold (machine q) 0 rs w (SaysOnly (machine q) (soft_path q w k e) (λ v. allowed v ≡ true) w.made)
        → Hold (machine q) 5 rs w (λ u. KeepsOnly (machine q) (soft_path q w k e) (λ v. allowed v ≡ true) u × SaysOnly (machine q) (soft_path q w k e) (λ v. allowed v ≡ true) 0 u) }
{}

/// Paths are sound: in a network within bounds, 5 H + 4 calm rounds on, each path says what a live sender's tree says, and so
/// does each Path in flight to an end by which its sender's tree comes; H is the length of the longest chain.
pub fn paths_are_sound()
    ensures { (q : ℕ) (w : World) (rs : List (List Step)) → Rounds (machine q) rs w → AreBounds q w → Hold (machine q) (4 + 5 * longest w.net) rs w ArePathsSound }
{}

/// One hop settles, for a Path: in a network within bounds, where from now on each Path of a sender to a group that is sent
/// over a hop of its tree says a value, no PathTear of the sender is sent over it, what arrives is taken, and the node before
/// the hop knows the sender, two calm rounds on the path state there is the value, and stays so.
pub fn said_paths_are_kept()
    ensures { (q : ℕ) (w : World) (k : SenderKey) (h : LinkHop) (v : PathValue) → In h (tree w.net.hops k.0.group k.1.addr)
        → is_group k.0.group ≡ true → (rs : List (List Step)) → Rounds (machine q) rs w → AreBounds q w
        → Hold (machine q) 0 rs w (IsSaidPath q w.net k h v w.made) → Hold (machine q) 2 rs w (Stands (machine q) (soft_path q w k h.to) v) }
{}

/// So it is with a live sender's Path, in a network within bounds with hosts, where from now on paths are sound, and complete to
/// all nodes that are no more hops from their senders than the one before the hop: the value is the address of that one, with
/// the sender's flow.
pub fn live_paths_are_kept()
    ensures { (q : ℕ) (w : World) (d : ℕ) (k : SenderKey) (t : TokenBucket) (h : LinkHop) → AreHosts w → IsLive w k t
        → In h (tree w.net.hops k.0.group k.1.addr) → depth w.net k.0.group k.1.addr (node_of w.net.ends h.to) ≤ suc d
        → (rs : List (List Step)) → Rounds (machine q) rs w → Hold (machine q) 0 rs w (IsSure q w d) → Hold (machine q) 2 rs w (Stands (machine q) (soft_path q w k h.to) (addr_of w.net h.from, t)) }
{}

/// Paths are complete: in a network within bounds with hosts, where paths are sound from now on, 2 H calm rounds on each live
/// sender has its path at each hop of its tree.
pub fn paths_are_complete()
    ensures { (q : ℕ) (w : World) (rs : List (List Step)) → Rounds (machine q) rs w → AreHosts w → AreBounds q w
        → Hold (machine q) 0 rs w ArePathsSound → Hold (machine q) (2 * longest w.net) rs w ArePathsComplete }
{}

/// Paths settle: in a network within bounds with hosts, 7 H + 4 calm rounds on, paths are sound and complete, whatever nodes
/// kept and whatever was in flight.
pub fn paths_settle()
    ensures { (q : ℕ) (w : World) (rs : List (List Step)) → Rounds (machine q) rs w → AreHosts w → AreBounds q w
        → Hold (machine q) ((4 + 5 * longest w.net) + 2 * longest w.net) rs w (λ u. ArePathsSound u × ArePathsComplete u) }
{}

/// Previous hops are hops of trees: in a valid network, where paths are sound, what comes to a node from a previous hop comes
/// over a hop of its sender's tree, that hop is one, and the senders via it are names of live senders over the hop.
pub fn previous_hops_are_hops()
    ensures { (w : World) → IsValid w.net → ArePathsSound w → ArePreviousHops w }
{}

/// In a valid network with hosts, where paths are complete too, the senders via a previous hop are exactly the names over its
/// hop, and a node knows exactly the live senders whose tree begins at it or comes to it.
pub fn previous_hops_are_all_hops()
    ensures { (w : World) → IsValid w.net → AreHosts w → ArePathsSound w → ArePathsComplete w → AreAllPreviousHops w }
{}

/// A small network meets the premises of these laws, and at its start what they promise does not hold yet.
pub fn a_pair_meets_the_premises()
    ensures { MeetsThePremises }
{}

/// The first world of a script with a left-over path meets the premises of `paths_are_sound`, and its paths are not sound.
pub fn a_path_is_left_over()
    ensures { APathIsLeftOver }
{}

/// A small network meets the premises of the laws on Paths that are said over a hop (`said_paths_are_kept` and
/// `live_paths_are_kept`) through two calm rounds, and at their start what they promise does not hold yet.
pub fn a_pair_is_sure()
    ensures { IsSureOfPaths }
{}
