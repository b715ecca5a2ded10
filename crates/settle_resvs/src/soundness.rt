//! The laws.
ghost use Rattle.std.specs.Prelude.{◌+◌, ◌*◌, ℕ, List};
ghost use Rattle.tree_model.specs.Ranks.{longest};
ghost use Rattle.calm_rounds.specs.Hold.{Hold};
ghost use Rattle.calm_rounds.specs.Rounds.{Rounds};
ghost use Rattle.network_model.specs.Bounds.{AreBounds};
ghost use Rattle.network_model.specs.Sound.{ArePathsSound, AreResvsSound};
ghost use Rattle.network_model.specs.Steps.{Step, machine};
ghost use Rattle.network_model.specs.Worlds.{World};
ghost use Rattle.settle_resvs.specs.Below.{TowardIsAtMostTheWant};
ghost use Rattle.settle_resvs.specs.LeftOverExample.{AReservationIsLost, NothingIsReservedYet};

/// Toward is at most the want: in a network within bounds, where paths are sound, and a node's reservations name only live senders
/// over their hops and are sound over the hops that follow, what goes from the node toward a previous hop is at most what is wanted
/// over its hop.
pub fn toward_is_at_most_the_want()
    ensures { (q : ℕ) (w : World) → AreBounds q w → ArePathsSound w → TowardIsAtMostTheWant q w }
{}

/// Reservations are sound: in a network within bounds, where paths are sound from now on, 5 H + 5 calm rounds on, each reservation
/// that a node keeps, of whatever style and next hop, and each unit of each Resv in flight is at most what is wanted over its hop; H
/// is the length of the longest chain.
pub fn reservations_are_sound()
    ensures { (q : ℕ) (w : World) (rs : List (List Step)) → Rounds (machine q) rs w → AreBounds q w → Hold (machine q) 0 rs w ArePathsSound
        → Hold (machine q) (5 + 5 * longest w.net) rs w AreResvsSound }
{}

/// From any world within bounds, 10 H + 9 calm rounds on, reservations are sound: first paths are, then reservations.
pub fn reservations_become_sound()
    ensures { (q : ℕ) (w : World) (rs : List (List Step)) → Rounds (machine q) rs w → AreBounds q w → Hold (machine q) ((4 + 5 * longest w.net) + (5 + 5 * longest w.net)) rs w AreResvsSound }
{}

/// The first world of a script with a left-over reservation, of a next hop that no end has, meets the premises of these laws:
/// it is a start of convergence, paths are sound from it on, and its rounds settle it. Its reservations are not sound.
pub fn a_reservation_is_lost()
    ensures { AReservationIsLost }
{}

/// In a small network in which a host asks and nothing is reserved yet, reservations are not exact.
pub fn nothing_is_reserved_yet()
    ensures { NothingIsReservedYet }
{}
