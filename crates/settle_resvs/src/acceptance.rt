//! The laws.
ghost use Rattle.std.specs.Prelude.{◌≡◌, ◌+◌, ℕ, suc, List, true};
ghost use Rattle.rsvp_base.specs.declared.session.Session.{Session};
ghost use Rattle.calm_rounds.specs.Hold.{Hold};
ghost use Rattle.calm_rounds.specs.Rounds.{Rounds};
ghost use Rattle.tree_model.specs.Ranks.{longest};
ghost use Rattle.network_model.specs.Bounds.{AreBounds, AreHosts};
ghost use Rattle.network_model.specs.Locals.{locals_of};
ghost use Rattle.network_model.specs.Sound.{ArePathsComplete, ArePathsSound, AreResvsSound};
ghost use Rattle.network_model.specs.Steps.{Step, is_quiet, machine};
ghost use Rattle.network_model.specs.Worlds.{World};
ghost use Rattle.settle_resvs.specs.BlockadeExample.{ABlockadeIsLeftOver, SomethingIsRefused};
ghost use Rattle.settle_resvs.specs.Sessions.{HasNoFlowErrorOf, IsFreeOfBlockadesOf, SessionFits, TakesAllOf};

/// Each arrival of a session is taken: in a network within bounds with hosts, where paths are sound and complete and reservations
/// are sound from now on, and the session fits, one calm round on each unit of each Resv of the session that arrives stands at its
/// node as it was asked for, whatever other sessions ask for. No unit is refused, left out or cut.
pub fn arrivals_are_taken()
    ensures { (q : ℕ) (s : Session) (w : World) (rs : List (List Step)) → Rounds (machine q) rs w → AreHosts w → SessionFits w.net (locals_of w) s → AreBounds q w
        → Hold (machine q) 0 rs w (λ u. ArePathsSound u × (ArePathsComplete u × AreResvsSound u))
        → Hold (machine q) 1 rs w (λ u. (t : Step) → is_quiet t ≡ true → TakesAllOf s q t u) }
{}

/// Errors of a session with a flow are gone: in a network within bounds with hosts, where paths are sound and complete and
/// reservations are sound from now on, and the session fits, H + 1 calm rounds on no ResvErr of the session with a flow is in flight.
/// None is made, and each goes on along a chain of hops, one round a hop.
pub fn errors_are_gone()
    ensures { (q : ℕ) (s : Session) (w : World) (rs : List (List Step)) → Rounds (machine q) rs w → AreHosts w → SessionFits w.net (locals_of w) s → AreBounds q w
        → Hold (machine q) 0 rs w (λ u. ArePathsSound u × (ArePathsComplete u × AreResvsSound u))
        → Hold (machine q) (suc (longest w.net)) rs w (HasNoFlowErrorOf s) }
{}

/// Blockades of a session are gone: in a network within bounds, where no ResvErr of it with a flow is in flight from now on, three calm
/// rounds on no blockade of it lives.
pub fn blockades_are_gone()
    ensures { (q : ℕ) (s : Session) (w : World) (rs : List (List Step)) → Rounds (machine q) rs w → AreBounds q w → Hold (machine q) 0 rs w (HasNoFlowErrorOf s)
        → Hold (machine q) 3 rs w (IsFreeOfBlockadesOf s) }
{}

/// The first world of a script with a left-over blockade meets the premises of `blockades_are_gone` through three calm rounds,
/// and at its start the blockade lives.
pub fn a_blockade_is_left_over()
    ensures { ABlockadeIsLeftOver }
{}

/// Where a Resv that no sender asks for was injected it is refused, and an injected error with a flow is in flight.
pub fn something_is_refused()
    ensures { SomethingIsRefused }
{}
