//! An event is run on the network of a plan.
ghost use Rattle.std.specs.Prelude.{◌≡◌, false, IfOk, IsErr, OnErr};
ghost use Rattle.script_grammar.specs.Runs.{Plan, is_crowded_run, last_world};
ghost use Rattle.router_rules.specs.Inputs.{Arrival};
ghost use Rattle.network_replay.specs.Happening.{CanHappen, IsRead};
ghost use Rattle.network_replay.specs.Sights.{ShowsRun, event_sights};
ghost use Rattle.network_model.specs.Happenings.{IsFitEvent, event_with};
ghost use Rattle.script_run.specs.Standing.{RunsOn, StandsBehind};

use network_model::Event;
use network_replay::{NoTree, Router, Watch, World, WorldErr};

/// Runs an event on a network that stands behind a plan, and appends what it writes: the network stands behind the plan with the
/// event then. `watch` sees what happens. `NoTree`, only of a tree that moves, and one that the network cannot have: nothing changes.
/// `Crowded`: exactly where the run of that plan is crowded. `NoMemory`, only where the event asks for memory behind that plan: it ran
/// out.
pub fn run_event<R: Router + Drop, W: Watch>(
    world: &mut World<R>,
    event: &Event,
    watch: &mut W,
    out: &mut Vec<u8>,
) -> Result<Result<(), WorldErr>, NoTree>
    requires { IsFitEvent event.now }
    ensures runs { (p : Plan) (a : Arrival) → IsRead event.now a → StandsBehind R.seen world.old p → is_crowded_run p ≡ false
        → IfOk result (λ r. RunsOn R.seen p (event_with a event.now) r out.old.items out.new.items world.new) }
    ensures tree { IsErr result → CanHappen world.old.post.net event.now → ⊥ }
    ensures stays { OnErr result ((world.new ≡ world.old) × (out.new.items ≡ out.old.items) × (watch.new ≡ watch.old)) }
    ensures told { (p : Plan) (a : Arrival) → IsRead event.now a → StandsBehind R.seen world.old p
        → IfOk result (λ r. ShowsRun W.saw r watch.old watch.new (event_sights p.quarter (event_with a event.now) (last_world p))) }
{
    world.event(event, watch, out)
}
