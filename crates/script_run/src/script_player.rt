//! The player of the lines of a script.
ghost use Rattle.std.specs.Prelude.{◌≡◌, ◌≤◌, ◌∷◌, [], false, length, List, ℕ, None, Some, IfErr, IfOk, IsErr, OnErr};
ghost use Rattle.script_grammar.specs.Events.{Event as AnEvent};
ghost use Rattle.script_grammar.specs.Runs.{Plan, is_crowded_run, last_world};
ghost use Rattle.router_rules.specs.Inputs.{Arrival};
ghost use Rattle.script_grammar.specs.Draft.{Draft, nothing, plan_of};
ghost use Rattle.script_grammar.specs.Worlds.{World as AWorld};
ghost use Rattle.network_replay.specs.Agreeing.{Agrees};
ghost use Rattle.network_replay.specs.Happening.{CanHappen, IsRead};
ghost use Rattle.network_replay.specs.Sights.{Happened, Shows, ShowsRun};
ghost use Rattle.network_model.specs.Happenings.{IsFitEvent, event_with};
ghost use Rattle.script_run.specs.Playing.{Plays};
ghost use Rattle.script_run.specs.Written.{IsRunSoFar, with_event};
ghost use Rattle.script_run.specs.Shown.{ShowsOn, line_sights};
ghost use Rattle.script_run.specs.Standing.{IsAt, IsNetworkOf, RunsOnto, StandsBehind};

use crate::checks::{Checks, Start};
use crate::event_run::run_event;
use crate::opens::Opens;
use crate::player::Player;
use network_model::Event;
use network_replay::{NoTree, Watch, World, WorldErr};
use rsvp_base::NoMemory;
use script_grammar::{Fault, Stop, put_advice};
use std::alloc::Global;

/// Checks the lines of a script and runs their events. It has what checks them and, from the first event on, the network that they
/// declare.
#[derive(Drop)]
pub struct ScriptPlayer<C: Checks + Drop, R: Opens> {
    alloc: Global,
    checker: C,
    world: Option<World<R>>,
}

impl<C: Checks + Drop, R: Opens> ScriptPlayer<C, R> {
    /// A player whose checker has taken some lines, none of which is that of an event.
    pub fn new(alloc: Global, checker: C) -> ScriptPlayer<C, R>
        ensures { result ≡ record { alloc = alloc; checker = checker; world = None } }
    {
        ScriptPlayer {
            alloc,
            checker,
            world: None,
        }
    }

    /// The network after the events that were run. `None` exactly where none was.
    pub fn into_world(self) -> Option<World<R>>
        ensures { result ≡ self.world }
    {
        self.world
    }
}

impl<C: Checks + Drop, R: Opens> Player for ScriptPlayer<C, R> {
    ghost stands = { λ p d. IsAt R.seen (C.lines p.checker) p.world d };

    fn play<W: Watch>(
        &mut self,
        line: &[u8],
        watch: &mut W,
        out: &mut Vec<u8>,
    ) -> Result<(), Stop> {
        match self.checker.feed(line) {
            Ok(None) => {
                watch.line_taken(line);
                Ok(())
            }
            Ok(Some(event)) => {
                match happen(
                    self.alloc,
                    &self.checker,
                    &mut self.world,
                    line,
                    &event,
                    watch,
                    out,
                ) {
                    Ok(Ok(())) => Ok(()),
                    Ok(Err(WorldErr::Crowded)) => Err(Stop::Crowded),
                    Ok(Err(WorldErr::NoMemory)) => Err(Stop::NoMemory),
                    // No line that was taken has such a tree.
                    Err(_) => Err(Stop::Bad(Fault::NotTree)),
                }
            }
            Err(stop) => Err(stop),
        }
    }

    fn advise(&self, line: &[u8], why: &Fault, advice: &mut Vec<u8>) -> Result<(), NoMemory> {
        put_advice(self.alloc, &self.checker, line, why, advice)
    }
}

// Runs the event of a line, which was fed last; the network is opened where it is the first. `NoTree` only where the network cannot
// have the event's tree.
fn happen<C: Checks + Drop, R: Opens, W: Watch>(
    alloc: Global,
    checker: &C,
    world: &mut Option<World<R>>,
    line: &[u8],
    event: &Event,
    watch: &mut W,
    out: &mut Vec<u8>,
) -> Result<Result<(), WorldErr>, NoTree>
    requires { IsFitEvent event.now }
    ensures runs { (p : Plan) (a : Arrival) → IsRead event.now a → IsNetworkOf R.seen world.old p → plan_of (C.lines checker.now) ≡ with_event p (event_with a event.now) → is_crowded_run p ≡ false
        → IfOk result (λ r. RunsOnto R.seen p (event_with a event.now) r out.old.items out.new.items world.new) }
    ensures tree { (p : Plan) (e : AnEvent) → IsNetworkOf R.seen world.old p → plan_of (C.lines checker.now) ≡ with_event p e
        → IsErr result → CanHappen (last_world p).net event.now → ⊥ }
    ensures told { (p : Plan) (a : Arrival) → IsRead event.now a → IsNetworkOf R.seen world.old p → plan_of (C.lines checker.now) ≡ with_event p (event_with a event.now) → is_crowded_run p ≡ false
        → IfOk result (λ r. ShowsRun W.saw r watch.old watch.new (line_sights p.quarter (event_with a event.now) (last_world p))) }
{
    let mut network = match network_of(alloc, checker, world.take()) {
        Ok(network) => network,
        Err(_) => return Ok(Err(WorldErr::NoMemory)),
    };
    watch.happens(&network, line);
    let Ok(result) = run_event(&mut network, event, watch, out) else {
        *world = Some(network);
        return Err(NoTree);
    };
    show_happened(watch, &network, event, &result, out.as_slice());
    *world = Some(network);
    Ok(result)
}

// What watches sees the network behind an event, where that happened.
fn show_happened<R: Opens, W: Watch>(
    watch: &mut W,
    network: &World<R>,
    event: &Event,
    ran: &Result<(), WorldErr>,
    text: &[u8],
)
    ensures ok { (q : ℕ) (w : AWorld) (a : Arrival) → IsRead event.now a
        → IfOk ran.now (λ u. Agrees R.seen q network.now w → Shows W.saw watch.old watch.new (Happened w (event_with a event.now) ∷ [])) }
    ensures err { IfErr ran.now (λ e. watch.new ≡ watch.old) }
{
    match ran {
        Ok(()) => watch.happened(network, event, text),
        Err(_) => {}
    }
}

// The network, which is opened where there is none yet.
fn network_of<C: Checks + Drop, R: Opens>(
    alloc: Global,
    checker: &C,
    world: Option<World<R>>,
) -> Result<World<R>, NoMemory>
    ensures stands { IfOk result (λ v. (p : Plan) (e : AnEvent) → IsNetworkOf R.seen world p → plan_of (C.lines checker.now) ≡ with_event p e → StandsBehind R.seen v p) }
    ensures opened { OnErr result (world ≡ None) }
{
    match world {
        Some(world) => Ok(world),
        None => open_network(alloc, checker),
    }
}

// The network that the lines declare, before anything happened.
fn open_network<C: Checks + Drop, R: Opens>(
    alloc: Global,
    checker: &C,
) -> Result<World<R>, NoMemory>
    ensures { IfOk result (λ v. (p : Plan) (e : AnEvent) → p.events ≡ [] → plan_of (C.lines checker.now) ≡ with_event p e → StandsBehind R.seen v p) }
{
    let start = checker.start()?;
    let nodes = R::open_all(alloc, start.quarter, &start.routing, checker.left())?;
    let Start {
        quarter,
        seed,
        routing,
        names,
    } = start;
    World::open(alloc, quarter, seed, routing, names, nodes)
}
