//! The laws.
ghost use Rattle.std.specs.Prelude.{◌+◌, ◌≤◌, ℕ, length};
ghost use Rattle.calm_rounds.specs.Hold.{Visited};
ghost use Rattle.network_model.specs.Events.{rounds};
ghost use Rattle.network_model.specs.Locals.{locals_of};
ghost use Rattle.network_model.specs.Steps.{machine};
ghost use Rattle.network_model.specs.Worlds.{World};
ghost use Rattle.settle_openings.specs.Opening.{IsUntouched};
ghost use Rattle.settle_openings.specs.Waves.{AreNested, AreWired, HasNoAdverts, paid_for, room_of};

/// How much is in flight at most when a network opens: from an untouched network on, in which nobody advertises and no link has more than two
/// ends, and in which each tree of a group that has a hop has each hop that follows it in another tree, in each world of n rounds no more is in
/// flight than the following together: for each Path that was in flight at the start as many as its session has senders, and for each hop of
/// each sender's tree as many, and four. That is a number of the network, its senders and these Paths alone, whatever is wanted.
pub fn an_opening_has_room()
    ensures { (q n : ℕ) (w : World) → IsUntouched q w → HasNoAdverts w → AreWired w.net → AreNested w.net
        → Visited (machine q) (λ v. length v.flight ≤ paid_for w.net (locals_of w) w.flight + room_of w.net (locals_of w)) (rounds q n w) w }
{}
