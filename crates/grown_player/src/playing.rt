//! The events of a grown plan are played.
ghost use Rattle.std.specs.Prelude.{◌++◌, ◌∷◌, [], None, OnOk, false, map};
ghost use Rattle.std.specs.List.{All};
ghost use Rattle.network_model.specs.Events.{Reports, Rounds};
ghost use Rattle.network_model.specs.Runs.{Plan, last_world};
ghost use Rattle.network_replay.specs.Happening.{CanHappen, IsRead};
ghost use Rattle.network_replay.specs.Sights.{ShowsRun, event_sights};
ghost use Rattle.network_model.specs.Happenings.{IsFitEvent, event_with};
ghost use Rattle.router_rules.specs.Steps.{IsFitCall};
ghost use Rattle.tree_model.specs.Networks.{Net};
ghost use Rattle.router_rules.specs.Inputs.{WantAs};
ghost use Rattle.grown_network.specs.Grown.{send_event, want_event};
ghost use Rattle.grown_network.specs.Hosts.{session_of};
ghost use Rattle.grown_player.specs.Playing.{IsPlayed, Plays, ShowsMore, no_bytes};

use grown_network::{Wanted, flow_of, session_of};
use network_model::{Event, LocalCall};
use network_replay::{Router, Unwatched, Watch, World, WorldErr};
use script_run::run_event;
use tree_model::LocalSender;

/// The rate of each sender, in bytes per second.
const SENT: u64 = 1000;

/// Plays the events of a plan: all send, all want, so many rounds, and a report. `watch` sees all that happens.
pub(crate) fn play_plan<R: Router + Drop, W: Watch>(
    world: &mut World<R>,
    senders: &[LocalSender],
    wants: &[Wanted],
    rounds: u32,
    watch: &mut W,
    out: &mut Vec<u8>,
) -> Result<(), WorldErr>
    requires { All (λ w. IsFitCall (WantAs (session_of w.style) w.style w.senders w.flow false)) wants.now }
    ensures runs { (p : Plan) → IsPlayed R.seen p world.old out.old.items
        → Plays R.seen p (map send_event senders.now ++ (map want_event wants.now ++ Rounds rounds ∷ Reports None ∷ [])) result world.new out.new.items }
    ensures told { (p : Plan) → IsPlayed R.seen p world.old out.old.items
        → OnOk result (ShowsMore W.saw watch.old watch.new p (map send_event senders.now ++ (map want_event wants.now ++ Rounds rounds ∷ Reports None ∷ []))) }
{
    send_all(world, senders, out)?;
    want_all(world, wants, out)?;
    play(world, &Event::Rounds { times: rounds }, watch, out)?;
    play(world, &Event::Report { end: None }, watch, out)
}

// All begin to send.
fn send_all<R: Router + Drop>(
    world: &mut World<R>,
    senders: &[LocalSender],
    out: &mut Vec<u8>,
) -> Result<(), WorldErr>
    ensures { (p : Plan) → IsPlayed R.seen p world.old out.old.items → Plays R.seen p (map send_event senders.now) result world.new out.new.items }
{
    for sender in senders {
        send(world, sender, out)?;
    }
    Ok(())
}

// A sender begins to send.
fn send<R: Router + Drop>(
    world: &mut World<R>,
    sender: &LocalSender,
    out: &mut Vec<u8>,
) -> Result<(), WorldErr>
    ensures { (p : Plan) → IsPlayed R.seen p world.old out.old.items → Plays R.seen p (send_event sender.now ∷ []) result world.new out.new.items }
{
    let event = Event::Local {
        node: sender.node,
        call: LocalCall::Send {
            session: sender.session,
            sender: sender.sender,
            flow: flow_of(SENT),
        },
    };
    play(world, &event, &mut Unwatched, out)
}

// All is wanted.
fn want_all<R: Router + Drop>(
    world: &mut World<R>,
    wants: &[Wanted],
    out: &mut Vec<u8>,
) -> Result<(), WorldErr>
    requires { All (λ w. IsFitCall (WantAs (session_of w.style) w.style w.senders w.flow false)) wants.now }
    ensures { (p : Plan) → IsPlayed R.seen p world.old out.old.items → Plays R.seen p (map want_event wants.now) result world.new out.new.items }
{
    for wanted in wants {
        want(world, wanted, out)?;
    }
    Ok(())
}

// A reservation is wanted.
fn want<R: Router + Drop>(
    world: &mut World<R>,
    wanted: &Wanted,
    out: &mut Vec<u8>,
) -> Result<(), WorldErr>
    requires { IsFitCall (WantAs (session_of wanted.now.style) wanted.now.style wanted.now.senders wanted.now.flow false) }
    ensures { (p : Plan) → IsPlayed R.seen p world.old out.old.items → Plays R.seen p (want_event wanted.now ∷ []) result world.new out.new.items }
{
    let event = Event::Local {
        node: wanted.node,
        call: LocalCall::Want {
            session: session_of(wanted.style),
            style: wanted.style,
            senders: wanted.senders.copy(),
            flow: wanted.flow,
            confirm: false,
        },
    };
    play(world, &event, &mut Unwatched, out)
}

// Plays an event without bytes, by which no tree moves.
fn play<R: Router + Drop, W: Watch>(
    world: &mut World<R>,
    event: &Event,
    watch: &mut W,
    out: &mut Vec<u8>,
) -> Result<(), WorldErr>
    requires fit { IsFitEvent event.now }
    requires read { IsRead event.now no_bytes }
    requires still { (net : Net) → CanHappen net event.now }
    ensures runs { (p : Plan) → IsPlayed R.seen p world.old out.old.items → Plays R.seen p (event_with no_bytes event.now ∷ []) result world.new out.new.items }
    ensures told { (p : Plan) → IsPlayed R.seen p world.old out.old.items
        → ShowsRun W.saw result watch.old watch.new (event_sights p.quarter (event_with no_bytes event.now) (last_world p)) }
{
    match run_event(world, event, watch, out) {
        Ok(ran) => ran,
        Err(_) => unreachable!(),
    }
}
