//! What is left over at a router.
ghost use Rattle.std.specs.Prelude.{◌≡◌};
ghost use Rattle.router_rules.specs.Rule.{facts_with};
ghost use Rattle.router_rules.specs.Steps.{IsFitStale};
ghost use Rattle.router_state.specs.State.{facts_at};
ghost use Rattle.network_model.specs.Runs.{left_over};
ghost use Rattle.stale_state.specs.AtNodes.{list_of};
ghost use Rattle.stale_state.specs.Kept.{stale_of};
ghost use Rattle.live_router.specs.Leaving.{AreFitAt};

use crate::live_router::LiveRouter;
use stale_state::{Left, LeftOver};

/// What is left over at the node of this number is left over at the router, in order, as of the moment 0. Each lives no longer
/// than a fact that was just refreshed, and has the shape of one. One that the router refuses changes nothing. Nothing is sent.
pub fn left_at(router: &mut LiveRouter, node: u16, left: &[LeftOver])
    requires fit { AreFitAt router.old.place node left.now }
    ensures facts { facts_at 0 router.new ≡ left_over router.old.place node (list_of left.now) (facts_at 0 router.old) }
    ensures place { router.new.place ≡ router.old.place }
{
    for one in left {
        if one.node == node {
            leave(router, &one.fact, one.left);
        }
    }
}

// A fact is left over at the router, with this much left, in milliseconds. Where it is refused nothing changes.
fn leave(router: &mut LiveRouter, fact: &Left, left: u32)
    requires { IsFitStale router.old.place 0 (stale_of fact.now left) }
    ensures facts { facts_at 0 router.new ≡ facts_with router.old.place 0 (stale_of fact.now left) (facts_at 0 router.old) }
    ensures place { router.new.place ≡ router.old.place }
{
    match fact {
        Left::Path(fact) => {
            let _ = router.stale_path(fact.copy(), left);
        }
        Left::Resv(style, fact) => {
            let _ = router.stale_resv(*style, fact.copy(), left);
        }
        Left::Wall(session, target, wall) => {
            let _ = router.stale_blockade(*session, *target, *wall, left);
        }
    }
}
