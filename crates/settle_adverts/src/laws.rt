//! The laws.
ghost use Rattle.std.specs.Prelude.{◌+◌, ◌*◌, ℕ, List};
ghost use Rattle.calm_rounds.specs.Hold.{Hold};
ghost use Rattle.calm_rounds.specs.Rounds.{Rounds};
ghost use Rattle.tree_model.specs.Networks.{Net};
ghost use Rattle.tree_model.specs.Ranks.{longest};
ghost use Rattle.tree_model.specs.Valid.{IsValid};
ghost use Rattle.network_model.specs.Bounds.{AreBounds, AreHosts};
ghost use Rattle.network_model.specs.Steps.{Step, machine};
ghost use Rattle.network_model.specs.Worlds.{World};
ghost use Rattle.settle_adverts.specs.Demanded.{HasSettledAdverts, SettledAdvertsAreDemanded};
ghost use Rattle.settle_adverts.specs.Adverts.{AreAdvertsExact, AreAdvertsThere};
ghost use Rattle.settle_adverts.specs.Ways.{AWayGoesHopByHop};

/// A way goes hop by hop along its tree: none to the node of the source, and to the node that a hop of the tree goes into the way to the
/// node that it goes out of, and then the hop; it has as many hops as the node is deep.
pub fn a_way_goes_hop_by_hop()
    ensures { (net : Net) → IsValid net → AWayGoesHopByHop net }
{}

/// Advertisements are exact: in a network within bounds with hosts, 5 H + 4 calm rounds on, each path of an advertised sender keeps the
/// advertisement of its way, each path of another sender keeps none, and each Path in flight that comes to an end by which its sender's
/// tree comes into the node carries the same; whatever nodes kept and whatever was in flight. H is the length of the longest chain.
pub fn adverts_are_exact()
    ensures { (q : ℕ) (w : World) (rs : List (List Step)) → Rounds (machine q) rs w → AreBounds q w → AreHosts w
        → Hold (machine q) (4 + 5 * longest w.net) rs w AreAdvertsExact }
{}

/// Advertisements settle: in a network within bounds with hosts, 7 H + 4 calm rounds on, each live sender has a path at each hop of its
/// tree, with the advertisement of the way to there where the sender is advertised, and with none where it is not.
pub fn adverts_settle()
    ensures { (q : ℕ) (w : World) (rs : List (List Step)) → Rounds (machine q) rs w → AreBounds q w → AreHosts w
        → Hold (machine q) (4 + 7 * longest w.net) rs w AreAdvertsThere }
{}

/// So all of it has settled: in a network within bounds with hosts, 7 H + 4 calm rounds on, paths are sound, advertisements exact, and there.
pub fn all_adverts_settle()
    ensures { (q : ℕ) (w : World) (rs : List (List Step)) → Rounds (machine q) rs w → AreBounds q w → AreHosts w
        → Hold (machine q) (4 + 7 * longest w.net) rs w (HasSettledAdverts q) }
{}

/// What an `adverts` line writes from there on is what is demanded: by end, session and sender the advertisement of each advertised live
/// sender whose tree comes into the node by that end, whole, and nothing else. It depends on the network and on who is advertised alone.
pub fn settled_adverts_are_demanded()
    ensures { SettledAdvertsAreDemanded }
{}
