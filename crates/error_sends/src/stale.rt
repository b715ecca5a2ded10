//! Left-over blockades.
ghost use Rattle.std.specs.Prelude.{◌≡◌, ◌≤◌, ◌+◌, ℕ, None, Some, MatchResult};
ghost use Rattle.router_rules.specs.Calls.{act_stale, stale_refusal};
ghost use Rattle.router_rules.specs.Inputs.{StaleWall};
ghost use Rattle.laws_sends.specs.State.{State, facts_of};

use blockade_state::Blockades;
use router_rules::StaleErr;
use rsvp_base::Session;
use style_rules::{Target, Wall};

/// A blockade is left over at a node, with this much left, in milliseconds, in place of the one that stands there. `Full`
/// exactly where this would be a 513th; nothing changes then.
pub fn leave_wall(
    walls: &mut Blockades,
    session: Session,
    target: Target,
    wall: Wall,
    left: u32,
) -> Result<(), StaleErr>
    requires { 1 ≤ left }
    ensures refused { (c : ℕ) (n : State) → n.walls ≡ walls.old
        → MatchResult result (λ _. stale_refusal n.place (StaleWall (session, target) (record { wall = wall; dies = c + left })) (facts_of c n)
        ≡ None) (λ e. stale_refusal n.place (StaleWall (session, target) (record { wall = wall; dies = c + left })) (facts_of c n) ≡ Some e) }
    ensures facts { (c : ℕ) (n : State) → n.walls ≡ walls.old
        → facts_of c (record n { walls = walls.new })
        ≡ act_stale n.place (StaleWall (session, target) (record { wall = wall; dies = c + left })) (facts_of c n) }
{
    match walls.set(session, target, wall, left) {
        Ok(()) => Ok(()),
        Err(_) => Err(StaleErr::Full),
    }
}
