//! What watches a network.
ghost use Rattle.std.specs.Prelude.{◌≡◌, ◌≤◌, ◌∷◌, [], ℕ, List};
ghost use Rattle.network_flight.specs.Worlds.{World as AWorld};
ghost use Rattle.network_model.specs.Happenings.{event_with};
ghost use Rattle.router_rules.specs.Inputs.{Arrival};
ghost use Rattle.network_replay.specs.Agreeing.{Agrees};
ghost use Rattle.network_replay.specs.Happening.{IsRead};
ghost use Rattle.network_replay.specs.Sights.{Delivered, Happened, Next, RoundOver, Shows, Sight, Waited};

use crate::router::Router;
use crate::world::World;
use network_model::Event;
use router_rules::Heard;

/// What watches a network as a script runs on it. It sees the network where it stands, and changes nothing of it: what a network
/// does and writes is the same whoever watches. Contracts say of a run what was shown of it, in order, each sight in whatever
/// world of the model the network agreed with then; what a watcher makes of its sights is its own matter.
pub trait Watch {
    /// It was shown these sights.
    ghost saw: { Self → List Sight → Type 0 };

    /// So many of all rounds of an event are over, and the network stands so.
    fn round_over<R: Router + Drop>(&mut self, world: &World<R>, done: u32, all: u32)
        requires { done ≤ all }
        ensures { (q : ℕ) (w : AWorld) → Agrees R.seen q world.now w → Shows saw self.old self.new (RoundOver w done all ∷ []) };

    /// The datagram that was at a place in flight, counted from 0, was delivered, and this is what its node made of it. What the
    /// node sent for it is in flight.
    fn delivered<R: Router + Drop>(&mut self, world: &World<R>, place: usize, heard: Heard)
        ensures { (q : ℕ) (w : AWorld) → Agrees R.seen q world.now w → Shows saw self.old self.new (Delivered w place heard ∷ []) };

    /// So many milliseconds passed, at most half a period. What the nodes sent meanwhile is in flight.
    fn waited<R: Router + Drop>(&mut self, world: &World<R>, ms: u32)
        ensures { (q : ℕ) (w : AWorld) → Agrees R.seen q world.now w → Shows saw self.old self.new (Waited w ms ∷ []) };

    /// A line that has no event was taken.
    fn line_taken(&mut self, line: &[u8])
        ensures { (ss : List Sight) → saw self.old ss → saw self.new ss }
    {
        let _ = line;
    }

    /// The event of this line is next.
    fn happens<R: Router + Drop>(&mut self, world: &World<R>, line: &[u8])
        ensures { (q : ℕ) (w : AWorld) → Agrees R.seen q world.now w → Shows saw self.old self.new (Next w ∷ []) };

    /// The event happened, and wrote this.
    fn happened<R: Router + Drop>(&mut self, world: &World<R>, event: &Event, text: &[u8])
        ensures { (q : ℕ) (w : AWorld) (a : Arrival) → IsRead event.now a → Agrees R.seen q world.now w
            → Shows saw self.old self.new (Happened w (event_with a event.now) ∷ []) };
}

impl<W: Watch> Watch for &mut W {
    ghost saw = { λ w ss. W.saw w.now ss };

    fn round_over<R: Router + Drop>(&mut self, world: &World<R>, done: u32, all: u32) {
        (**self).round_over(world, done, all)
    }

    fn delivered<R: Router + Drop>(&mut self, world: &World<R>, place: usize, heard: Heard) {
        (**self).delivered(world, place, heard)
    }

    fn waited<R: Router + Drop>(&mut self, world: &World<R>, ms: u32) {
        (**self).waited(world, ms)
    }

    fn line_taken(&mut self, line: &[u8]) {
        (**self).line_taken(line)
    }

    fn happens<R: Router + Drop>(&mut self, world: &World<R>, line: &[u8]) {
        (**self).happens(world, line)
    }

    fn happened<R: Router + Drop>(&mut self, world: &World<R>, event: &Event, text: &[u8]) {
        (**self).happened(world, event, text)
    }
}

/// Two watch, and are shown the same.
#[derive(Drop)]
pub struct Both<A: Watch + Drop, B: Watch + Drop> {
    first: A,
    second: B,
}

impl<A: Watch + Drop, B: Watch + Drop> Both<A, B> {
    /// These two.
    pub fn new(first: A, second: B) -> Both<A, B>
        ensures { result ≡ record { first = first; second = second } }
    {
        Both { first, second }
    }
}

impl<A: Watch + Drop, B: Watch + Drop> Watch for Both<A, B> {
    ghost saw = { λ b ss. A.saw b.first ss × B.saw b.second ss };

    fn round_over<R: Router + Drop>(&mut self, world: &World<R>, done: u32, all: u32) {
        self.first.round_over(world, done, all);
        self.second.round_over(world, done, all)
    }

    fn delivered<R: Router + Drop>(&mut self, world: &World<R>, place: usize, heard: Heard) {
        self.first.delivered(world, place, heard);
        self.second.delivered(world, place, heard)
    }

    fn waited<R: Router + Drop>(&mut self, world: &World<R>, ms: u32) {
        self.first.waited(world, ms);
        self.second.waited(world, ms)
    }

    fn line_taken(&mut self, line: &[u8]) {
        self.first.line_taken(line);
        self.second.line_taken(line)
    }

    fn happens<R: Router + Drop>(&mut self, world: &World<R>, line: &[u8]) {
        self.first.happens(world, line);
        self.second.happens(world, line)
    }

    fn happened<R: Router + Drop>(&mut self, world: &World<R>, event: &Event, text: &[u8]) {
        self.first.happened(world, event, text);
        self.second.happened(world, event, text)
    }
}

/// Nobody watches.
#[derive(Clone, Copy)]
pub struct Unwatched;

impl Watch for Unwatched {
    ghost saw = { λ w ss. Unit {0} };

    fn round_over<R: Router + Drop>(&mut self, _world: &World<R>, _done: u32, _all: u32) {}

    fn delivered<R: Router + Drop>(&mut self, _world: &World<R>, _place: usize, _heard: Heard) {}

    fn waited<R: Router + Drop>(&mut self, _world: &World<R>, _ms: u32) {}

    fn happens<R: Router + Drop>(&mut self, _world: &World<R>, _line: &[u8]) {}

    fn happened<R: Router + Drop>(&mut self, _world: &World<R>, _event: &Event, _text: &[u8]) {}
}
