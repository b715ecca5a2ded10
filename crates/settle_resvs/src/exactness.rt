//! The laws.
ghost use Rattle.std.specs.Prelude.{◌+◌, ◌*◌, ℕ, List};
ghost use Rattle.rsvp_base.specs.declared.session.Session.{Session};
ghost use Rattle.calm_rounds.specs.Hold.{Hold};
ghost use Rattle.calm_rounds.specs.Rounds.{Rounds};
ghost use Rattle.tree_model.specs.Ranks.{longest};
ghost use Rattle.network_model.specs.Bounds.{AreBounds, AreHosts};
ghost use Rattle.network_model.specs.Locals.{locals_of};
ghost use Rattle.network_model.specs.Sound.{ArePathsComplete, ArePathsSound, AreResvsSound};
ghost use Rattle.network_model.specs.Steps.{Step, machine};
ghost use Rattle.network_model.specs.Worlds.{World};
ghost use Rattle.settle_resvs.specs.Sessions.{AreExactOf, IsFreeOfBlockadesOf, SessionFits};
ghost use Rattle.settle_resvs.specs.Toward.{TowardIsTheWant};

/// Toward is the want: in a network within bounds, where paths are sound and complete, no blockade of a session lives at a node, and its
/// reservations are sound and exact over the hops that follow, what goes of the session from the node toward a previous hop is what is
/// wanted over its hop.
pub fn toward_is_the_want()
    ensures { (q : ℕ) (w : World) → AreBounds q w → ArePathsSound w → ArePathsComplete w → TowardIsTheWant q w }
{}

/// Reservations of a session are exact: in a network within bounds with hosts, where from now on paths are sound and complete,
/// reservations are sound and no blockade of the session lives, and the session fits, 2 H + 1 calm rounds on what stands of it in a
/// style over a hop is exactly what is wanted over it, unit by unit.
pub fn reservations_become_exact()
    ensures { (q : ℕ) (s : Session) (w : World) (rs : List (List Step)) → Rounds (machine q) rs w → AreHosts w → SessionFits w.net (locals_of w) s → AreBounds q w
        → Hold (machine q) 0 rs w (λ u. (ArePathsSound u × (ArePathsComplete u × AreResvsSound u)) × IsFreeOfBlockadesOf s u)
        → Hold (machine q) (1 + 2 * longest w.net) rs w (AreExactOf s) }
{}
