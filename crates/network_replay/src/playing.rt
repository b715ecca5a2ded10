//! What events do to a network.
ghost use Rattle.std.specs.Prelude.{◌≡◌, ◌≢◌, ◌≤◌, ◌*◌, ◌∷◌, [], ℕ, List, None, Some, Err, IfErr, IfOk, IsErr, Ok, OnErr, length, true};
ghost use Rattle.std.specs.List.{repeat};
ghost use Rattle.network_flight.specs.Events.{at_place, last_piece, pieces, steps_of};
ghost use Rattle.network_flight.specs.Steps.{Copy, Deliver, Lose, Piece, Reroute, rerouted};
ghost use Rattle.router_rules.specs.Inputs.{Arrival};
ghost use Rattle.network_replay.specs.Happening.{CanHappen, HasRoom, IsRead, takes_memory};
ghost use Rattle.network_model.specs.Happenings.{IsFitEvent, event_with};
ghost use Rattle.network_model.specs.Moves.{CanMove};
ghost use Rattle.network_replay.specs.Running.{IsSame, Makes, refusal_of};
ghost use Rattle.network_replay.specs.Sights.{Tells, event_sights, sights};
ghost use Rattle.network_replay.specs.declared.world_err.WorldErr.{WorldErr as AnErr};
ghost use Rattle.network_replay.specs.declared.world_err.WorldErr.TheVariants as refusal;

use crate::no_tree::NoTree;
use crate::router::Router;
use crate::watch::Watch;
use crate::world::World;
use crate::world_err::WorldErr;
use network_model::Event;
use rsvp_base::Addr;
use tree_routing::LinkHop;

impl<R: Router + Drop> World<R> {
    /// What happens, and its text, which is appended. `NoTree`, only of a tree that moves, and one that the network cannot have: nothing
    /// changes, nothing is written, and other events may happen. `Crowded` exactly where it would put an 8,193rd datagram in flight: the
    /// text of what happened before that is appended. `NoMemory`, only of a report, of a tree that moves and for which there is room, or
    /// where the trace is on: a prefix of the text is appended. Behind one of these two each later event is refused in the same way, and
    /// changes nothing. `watch` sees the network behind each delivery, each piece of a wait and each round: all of them, in order, or up
    /// to the refusal.
    pub fn event<W: Watch>(
        &mut self,
        event: &Event,
        watch: &mut W,
        out: &mut Vec<u8>,
    ) -> Result<Result<(), WorldErr>, NoTree>
        requires { IsFitEvent event.now }
        ensures made { (a : Arrival) → IsRead event.now a → self.old.refused ≡ None
            → IfOk result (λ r. Makes R.seen self.old r out.old.items out.new.items self.new (λ q w. steps_of q (event_with a event.now) w)) }
        ensures again { (e : AnErr) → self.old.refused ≡ Some e → (result ≡ Ok (Err e)) × (self.new ≡ self.old) × (out.new.items ≡ out.old.items) }
        ensures refused { IfOk result (λ r. self.new.refused ≡ refusal_of r) }
        ensures names { self.new.names ≡ self.old.names }
        ensures quarter { self.new.quarter ≡ self.old.quarter }
        ensures only { self.old.refused ≡ None → IfOk result (λ r. r ≡ Err refusal.NoMemory → takes_memory self.old.trace event.now ≡ true) }
        ensures room { self.old.refused ≡ None → IfOk result (λ r. HasRoom self.old.post.net event.now) }
        ensures can { self.old.refused ≡ None → IfOk result (λ r. r ≢ Err refusal.NoMemory → CanHappen self.old.post.net event.now) }
        ensures tree { IsErr result → CanHappen self.old.post.net event.now → ⊥ }
        ensures stays { OnErr result ((self.new ≡ self.old) × (out.new.items ≡ out.old.items) × (watch.new ≡ watch.old)) }
        ensures told { (a : Arrival) → IsRead event.now a → self.old.refused ≡ None
            → IfOk result (λ r. Tells W.saw R.seen self.old r watch.old watch.new (λ q w. event_sights q (event_with a event.now) w)) }
    {
        if let Some(e) = self.refused {
            return Ok(Err(e));
        }
        match event {
            Event::Local { node, call } => Ok(self.call(*node, call)),
            Event::Wait { ms } => Ok(self.wait(*ms, watch)),
            Event::Pass { times } => Ok(self.passes(*times, watch, out)),
            Event::Deliver { place } => Ok(self.deliver_at(*place, watch, out)),
            Event::Lose { place } => Ok(self.lose_at(*place)),
            Event::Again { place } => Ok(self.copy_at(*place)),
            Event::Clear { node } => Ok(self.clear(*node)),
            Event::Rounds { times } => Ok(self.rounds(*times, watch, out)),
            Event::Trace { on } => Ok(self.set_trace(*on)),
            Event::Report { end } => Ok(self.write_report(*end, out)),
            Event::Flags => Ok(self.write_flags(out)),
            Event::Adverts => Ok(self.write_adverts(out)),
            Event::Inject { end, dst, bytes } => Ok(self.inject(*end, *dst, bytes.as_slice())),
            Event::Reroute {
                group,
                source,
                hops,
            } => self.move_tree(*group, *source, hops.as_slice()),
        }
    }

    // Time passes: half periods, and what is left.
    fn wait<W: Watch>(&mut self, ms: u32, watch: &mut W) -> Result<(), WorldErr>
        requires { self.old.refused ≡ None }
        ensures made { (t : List ℕ) → Makes R.seen self.old result t t self.new (λ q w. pieces q ms) }
        ensures same { IsSame self.old self.new }
        ensures refused { self.new.refused ≡ refusal_of result }
        ensures crowded { IfErr result (λ e. e ≡ refusal.Crowded) }
        ensures told { Tells W.saw R.seen self.old result watch.old watch.new (λ q w. sights q (pieces q ms) w) }
    {
        let half = self.half_ms();
        self.half_periods(ms / half, watch)?;
        self.last_piece(ms % half, watch)
    }

    // So many half periods.
    fn half_periods<W: Watch>(&mut self, times: u32, watch: &mut W) -> Result<(), WorldErr>
        requires { self.old.refused ≡ None }
        ensures made { (t : List ℕ) → Makes R.seen self.old result t t self.new (λ q w. repeat times (Piece (2 * q) ∷ [])) }
        ensures same { IsSame self.old self.new }
        ensures refused { self.new.refused ≡ refusal_of result }
        ensures crowded { IfErr result (λ e. e ≡ refusal.Crowded) }
        ensures told { Tells W.saw R.seen self.old result watch.old watch.new (λ q w. sights q (repeat times (Piece (2 * q) ∷ [])) w) }
    {
        for _ in 0..times {
            self.half_period(watch)?;
        }
        Ok(())
    }

    // What is left of a wait, if anything.
    fn last_piece<W: Watch>(&mut self, ms: u32, watch: &mut W) -> Result<(), WorldErr>
        requires going { self.old.refused ≡ None }
        requires short { ms ≤ 2 * self.old.quarter }
        ensures made { (t : List ℕ) → Makes R.seen self.old result t t self.new (λ q w. last_piece q ms) }
        ensures same { IsSame self.old self.new }
        ensures refused { self.new.refused ≡ refusal_of result }
        ensures crowded { IfErr result (λ e. e ≡ refusal.Crowded) }
        ensures told { Tells W.saw R.seen self.old result watch.old watch.new (λ q w. sights q (last_piece q ms) w) }
    {
        if ms == 0 {
            return Ok(());
        }
        self.piece(ms, watch)
    }

    // Delivers the datagram at a place, from 1.
    fn deliver_at<W: Watch>(
        &mut self,
        place: u32,
        watch: &mut W,
        out: &mut Vec<u8>,
    ) -> Result<(), WorldErr>
        requires { self.old.refused ≡ None }
        ensures made { Makes R.seen self.old result out.old.items out.new.items self.new (λ q w. at_place Deliver place) }
        ensures same { IsSame self.old self.new }
        ensures refused { self.new.refused ≡ refusal_of result }
        ensures only { result ≡ Err refusal.NoMemory → self.old.trace ≡ true }
        ensures told { Tells W.saw R.seen self.old result watch.old watch.new (λ q w. sights q (at_place Deliver place) w) }
    {
        if place == 0 {
            return Ok(());
        }
        self.deliver((place - 1) as usize, watch, out)
    }

    // Takes away the datagram at a place, from 1.
    fn lose_at(&mut self, place: u32) -> Result<(), WorldErr>
        requires { self.old.refused ≡ None }
        ensures made { (t : List ℕ) → Makes R.seen self.old result t t self.new (λ q w. at_place Lose place) }
        ensures same { IsSame self.old self.new }
        ensures refused { self.new.refused ≡ refusal_of result }
        ensures crowded { IfErr result (λ e. e ≡ refusal.Crowded) }
    {
        if place == 0 {
            return Ok(());
        }
        self.lose((place - 1) as usize)
    }

    // Puts the datagram at a place, from 1, in flight once more.
    fn copy_at(&mut self, place: u32) -> Result<(), WorldErr>
        requires { self.old.refused ≡ None }
        ensures made { (t : List ℕ) → Makes R.seen self.old result t t self.new (λ q w. at_place Copy place) }
        ensures same { IsSame self.old self.new }
        ensures refused { self.new.refused ≡ refusal_of result }
        ensures crowded { IfErr result (λ e. e ≡ refusal.Crowded) }
    {
        if place == 0 {
            return Ok(());
        }
        self.copy((place - 1) as usize)
    }

    // These hops are the tree of the group and source from now on. `NoTree` where they cannot be.
    fn move_tree(
        &mut self,
        group: Addr,
        source: Addr,
        hops: &[LinkHop],
    ) -> Result<Result<(), WorldErr>, NoTree>
        requires { self.old.refused ≡ None }
        ensures made { (t : List ℕ) → IfOk result (λ r. Makes R.seen self.old r t t self.new (λ q w. Reroute group source hops.now ∷ [])) }
        ensures same { IsSame self.old self.new }
        ensures refused { IfOk result (λ r. self.new.refused ≡ refusal_of r) }
        ensures room { IfOk result (λ r. length (rerouted self.old.post.net group source hops.now).hops ≤ 8192) }
        ensures can { IfOk result (λ r. r ≢ Err refusal.NoMemory → CanMove self.old.post.net group source hops.now) }
        ensures tree { IsErr result → CanMove self.old.post.net group source hops.now → ⊥ }
        ensures stays { OnErr result (self.new ≡ self.old) }
    {
        match self.routing_with(group, source, hops) {
            Ok(Some(routing)) => Ok(self.reroute(group, source, hops, routing)),
            Ok(None) => Err(NoTree),
            Err(_) => {
                self.refused = Some(WorldErr::NoMemory);
                Ok(Err(WorldErr::NoMemory))
            }
        }
    }
}
