//! The laws.
ghost use Rattle.std.specs.Prelude.{◌≡◌, ◌<◌, ℕ, List, Bool, true, length};
ghost use Rattle.rsvp_base.specs.Members.{In};
ghost use Rattle.calm_rounds.specs.Hold.{Hold};
ghost use Rattle.calm_rounds.specs.SoftStates.{IsClosed, KeepsOnly, SaysOnly, Stands};
ghost use Rattle.calm_rounds.specs.Rounds.{Rounds};
ghost use Rattle.tree_model.specs.Trees.{hops_of};
ghost use Rattle.network_model.specs.Bounds.{AreBounds};
ghost use Rattle.network_model.specs.Steps.{Step, machine};
ghost use Rattle.network_model.specs.Worlds.{World};
ghost use Rattle.settle_resvs.specs.HopExample.{SaysAReservation};
ghost use Rattle.settle_resvs.specs.SoftResvs.{ResvKey, AllowsCuts, IsCut, soft_resv};
ghost use Rattle.settle_resvs.specs.Said.{HopKey, IsSaid, hop_over, resv_key};

use calm_rounds::Claim;
use rsvp_base::Part;

/// One hop settles, for a reservation: in a network within bounds, where all Resvs that a next hop sends to an end from now on
/// ask, for a session, style and unit, for what is allowed or for nothing, from the fifth calm round on the reservation there
/// is one that is allowed, and the Resvs in flight ask only for that. With each part each cut of it is allowed. The next hop is
/// any address: a left-over reservation of one that no end has dies out too.
pub fn only_said_resvs_are_kept()
    ensures { (q : ℕ) (w : World) (k : ResvKey) → k.to < length w.net.ends → (allowed : Part → Bool) → AllowsCuts allowed → (rs : List (List Step)) → Rounds (machine q) rs w → AreBounds q w
        → Hold (machine q) 0 rs w (SaysOnly (machine q) (soft_resv q w k) (λ v. allowed v ≡ true) w.made)
        → Hold (machine q) 5 rs w (λ u. KeepsOnly (machine q) (soft_resv q w k) (λ v. allowed v ≡ true) u × SaysOnly (machine q) (soft_resv q w k) (λ v. allowed v ≡ true) 0 u) }
{}

/// The same for what is claimed of parts, in place of a test of them.
pub fn only_resvs_as_claimed_are_kept<P: Claim<Part>>()
    ensures { (q : ℕ) (w : World) (k : ResvKey) → k.to < length w.net.ends → IsClosed IsCut P.holds → (rs : List (List Step)) → Rounds (machine q) rs w → AreBounds q w
        → Hold (machine q) 0 rs w (SaysOnly (machine q) (soft_resv q w k) P.holds w.made)
        → Hold (machine q) 5 rs w (λ u. KeepsOnly (machine q) (soft_resv q w k) P.holds u × SaysOnly (machine q) (soft_resv q w k) P.holds 0 u) }
{}

/// One hop settles, for a reservation: in a network within bounds, where from now on each Resv of a session and style that is
/// sent back over a hop of a tree carries a part for a unit, no such ResvTear takes a name of the part, what arrives is taken,
/// the node that asks has something to ask for, and the node that keeps knows the senders of the part, two calm rounds on the
/// reservation there is the part, and stays so.
pub fn said_resvs_are_kept()
    ensures { (q : ℕ) (w : World) (k : HopKey) (v : Part) → In (hop_over k) (hops_of w.net.hops k.session.group) → (rs : List (List Step)) → Rounds (machine q) rs w → AreBounds q w
        → Hold (machine q) 0 rs w (IsSaid q w.net k v w.made) → Hold (machine q) 2 rs w (Stands (machine q) (soft_resv q w (resv_key w.net k)) v) }
{}

/// A small network meets the premises of `said_resvs_are_kept` through two calm rounds, and at their start what it promises
/// does not hold yet.
pub fn a_pair_says_a_reservation()
    ensures { SaysAReservation }
{}
