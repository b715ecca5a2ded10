//! The world of a network.
ghost use Rattle.std.specs.Prelude.{◌≡◌, ◌↔◌, ◌<◌, ◌≤◌, ◌*◌, ◌^◌, ◌∷◌, ℕ, List, None, [], true, false, length, map, slice_get, Err, IfErr, IfNone, IfOk, IfSome, IsSome, MatchOption, OnErr, Some};
ghost use Rattle.network_flight.specs.Parcels.{Parcel as AParcel};
ghost use Rattle.network_replay.specs.declared.world_err.WorldErr.TheVariants as refusal;
ghost use Rattle.network_flight.specs.Events.{a_round, half, pass, passes, rounds};
ghost use Rattle.network_flight.specs.Steps.{Adverts, At, ClearAt, Copy, Deliver, Flags, Inject, Lose, Piece, Report, Reroute, Trace, rerouted};
ghost use Rattle.network_flight.specs.Runs.{Plan, adverts_report, first_world, whole_report};
ghost use Rattle.network_flight.specs.Worlds.{World as AWorld};
ghost use Rattle.tree_model.specs.Networks.{iface_of};
ghost use Rattle.tree_model.specs.Trees.{trees_of};
ghost use Rattle.tree_model.specs.declared.hops.End.{End as AnEnd};
ghost use Rattle.router_rules.specs.Inputs.{Arrival};
ghost use Rattle.router_rules.specs.Steps.{IsFitCall};
ghost use Rattle.network_replay.specs.Following.{IsArrival};
ghost use Rattle.network_model.specs.Happenings.{call_of};
ghost use Rattle.network_replay.specs.Agreeing.{Agrees};
ghost use Rattle.network_model.specs.Moves.{CanMove};
ghost use Rattle.network_replay.specs.Opening.{AreFirst, ArePlaced, IsOpenedBy};
ghost use Rattle.network_replay.specs.Reporting.{Says, report_said};
ghost use Rattle.network_replay.specs.Running.{IsSame, Makes, refusal_of};
ghost use Rattle.network_replay.specs.Sights.{Shows, ShowsRun, Tells, Waited, delivery, heard_there, rounds_sights, sights};

use crate::adverts::put_adverts;
use crate::mail::Mail;
use crate::moving::{move_all, routes_of};
use crate::report::{put_all, put_end};
use crate::router::Router;
use crate::stepping::{call_at, clear_at, hand_over, wait_all};
use crate::telling::tell;
use crate::watch::Watch;
use crate::world_err::WorldErr;
use network_flight::{Wires, room};
use network_model::LocalCall;
use router_rules::{Heard, Route};
use rsvp_base::{Addr, EndName, NoMemory};
use rsvp_objects::Packet;
use std::alloc::Global;
use std::marker::Model;
use tree_routing::{HopErr, LinkHop, Routing};

/// A network: its routers, the datagrams in flight, and the state of the random words that spread refreshes. After a refusal no
/// event changes it.
#[derive(Drop)]
pub struct World<R: Router + Drop> {
    alloc: Global,
    // A quarter of the refresh period, in milliseconds.
    quarter: u32,
    mail: Mail,
    names: Vec<EndName>,
    nodes: Vec<R>,
    // One for each tree of which the nodes have one; room for those of a node.
    routes: Vec<Route>,
    // The bytes of the datagram that is being delivered.
    hand: Box<Packet>,
    // The line that is being written.
    line: Vec<u8>,
    words: u64,
    trace: bool,
    delivered: u64,
    pub(crate) refused: Option<WorldErr>,
}

impl<R: Router + Drop> Model for World<R> {
    ghost use Rattle.std.specs.Prelude.{map};
    ghost use Rattle.network_replay.specs.Agreeing.{NetworkState, IsSteady};
    ghost use Rattle.network_replay.specs.Routed.{trees_in};

    ghost Value = { NetworkState R };

    ghost view = { λ w. record {
      quarter = w.quarter;
      post = w.mail;
      names = w.names.items;
      nodes = w.nodes.items;
      trees = trees_in w.routes.items;
      words = w.words;
      delivered = w.delivered;
      trace = w.trace;
      refused = w.refused;
    } };

    ghost invariant = { λ w. IsSteady w.quarter w.mail.net (trees_in w.routes.items) (map R.seen.place w.nodes.items) };
}

impl<R: Router + Drop> World<R> {
    /// A network in which nothing happened yet: nothing is in flight, and the trace is off. `quarter` is a quarter of the refresh
    /// period, in milliseconds, and the random words start at `seed`. It agrees with the first world of each plan of this network whose
    /// left-over facts the nodes have. `NoMemory`: there was no room for what may be in flight.
    pub fn open(
        alloc: Global,
        quarter: u32,
        seed: u64,
        routing: Routing,
        names: Vec<EndName>,
        nodes: Vec<R>,
    ) -> Result<World<R>, NoMemory>
        requires long { 1 ≤ quarter }
        requires short { 4 * quarter < 2 ^ 32 }
        requires placed { ArePlaced quarter routing (map R.seen.place nodes.items) }
        ensures first { IfOk result (λ v. (p : Plan) → IsOpenedBy p quarter seed routing names.items → AreFirst R.seen p nodes.items → Agrees R.seen quarter v (first_world p)) }
        ensures state { IfOk result (λ v. v ≡ record {
          quarter = quarter;
          post = record { net = routing; from = 0; flight = []; full = false; in_range = true };
          names = names.items;
          nodes = nodes.items;
          trees = trees_of routing.hops;
          words = seed;
          delivered = 0;
          trace = false;
          refused = None;
        }) }
    {
        let wires = Wires::open(alloc, routing)?;
        let _valid = wires.routing();
        let routes = routes_of(alloc, wires.routing())?;
        let mail = Mail::open(alloc, wires)?;
        let hand = room(alloc)?;
        Ok(World {
            alloc,
            quarter,
            mail,
            names,
            nodes,
            routes,
            hand,
            line: Vec::new(alloc),
            words: seed,
            trace: false,
            delivered: 0,
            refused: None,
        })
    }

    /// How many datagrams are in flight.
    pub fn in_flight(&self) -> usize
        ensures { result ≡ length self.now.post.flight }
    {
        self.mail.len()
    }

    /// How many datagrams were delivered so far, or 2^64 - 1 where it is more.
    pub fn delivered(&self) -> u64
        ensures { result ≡ self.now.delivered }
    {
        self.delivered
    }

    /// The router of a node. `None` exactly where there is no such node.
    pub fn node(&self, node: u16) -> Option<&R>
        ensures { MatchOption result (slice_get self.now.nodes node ≡ None) (λ r. slice_get self.now.nodes node ≡ Some r.now) }
    {
        self.nodes.get(node as usize)
    }

    /// The bytes of the k-th datagram in flight, in the order of sending, from 0. `None` exactly where k is not below their
    /// number.
    pub fn packet(&self, k: usize) -> Option<&[u8]>
        ensures { MatchOption result (slice_get self.now.post.flight k ≡ None) (λ b. (p : AParcel) × (slice_get self.now.post.flight k ≡ Some p) × (p.bytes ≡ b.now)) }
    {
        self.mail.packet(k)
    }

    /// The end and the destination of the datagram at a place, counted from 0; its bytes are put in `hand`. `None` exactly where
    /// nothing is there.
    pub fn look(&self, place: usize, hand: &mut Box<Packet>) -> Option<(u16, Addr)>
        ensures some { IfSome result (λ to. slice_get self.now.post.flight place ≡ Some (record { end = to.0; dst = to.1; bytes = hand.new.value })) }
        ensures none { IfNone result ((slice_get self.now.post.flight place ≡ None) × (hand.new ≡ hand.old)) }
    {
        self.mail.look(place, hand)
    }

    /// The routing in force.
    pub fn routing(&self) -> &Routing
        ensures { result.now ≡ self.now.post.net }
    {
        self.mail.wires().routing()
    }

    /// The node of an end, and the number that the end has among its interfaces. `None` exactly where there is no such end.
    pub fn place_of(&self, end: u16) -> Option<(u16, u8)>
        ensures { MatchOption result (slice_get self.now.post.net.ends end ≡ None)
            (λ to. (e : AnEnd) × (slice_get self.now.post.net.ends end ≡ Some e) × (to.0 ≡ e.node) × (to.1 ≡ iface_of self.now.post.net.ends end)) }
    {
        self.mail.wires().place_of(end)
    }

    /// The name of an end. `None` exactly where it has none.
    pub fn name(&self, end: u16) -> Option<&EndName>
        ensures { MatchOption result (slice_get self.now.names end ≡ None) (λ n. slice_get self.now.names end ≡ Some n.now) }
    {
        self.names.get(end as usize)
    }

    /// Appends what the book of an end holds, or those of all, with the policing flags of their entries or without. `NoMemory`: a
    /// prefix of it is appended.
    pub fn report(&self, end: Option<u16>, flags: bool, out: &mut Vec<u8>) -> Result<(), NoMemory>
        ensures { (q : ℕ) (w : AWorld) → Agrees R.seen q self.now w → Says result out.old.items out.new.items (report_said q self.now.names flags end w) }
    {
        let mut line = Vec::new(self.alloc);
        let names = self.names.as_slice();
        let wires = self.mail.wires();
        let nodes = self.nodes.as_slice();
        match end {
            Some(end) => put_end(&mut line, names, wires, nodes, end, flags, out),
            None => put_all(&mut line, names, wires, nodes, flags, out),
        }
    }

    /// Appends what the paths offer that came by each end. `NoMemory`: a prefix of it is appended.
    pub fn adverts(&self, out: &mut Vec<u8>) -> Result<(), NoMemory>
        ensures { (q : ℕ) (w : AWorld) → Agrees R.seen q self.now w → Says result out.old.items out.new.items (whole_report q self.now.names adverts_report w) }
    {
        let mut line = Vec::new(self.alloc);
        let wires = self.mail.wires();
        put_adverts(
            &mut line,
            self.names.as_slice(),
            wires,
            self.nodes.as_slice(),
            out,
        )
    }

    // Reports the books, of an end or of all.
    pub(crate) fn write_report(
        &mut self,
        end: Option<u16>,
        out: &mut Vec<u8>,
    ) -> Result<(), WorldErr>
        requires { self.old.refused ≡ None }
        ensures made { Makes R.seen self.old result out.old.items out.new.items self.new (λ q w. Report end ∷ []) }
        ensures same { IsSame self.old self.new }
        ensures refused { self.new.refused ≡ refusal_of result }
    {
        match self.report(end, false, out) {
            Ok(()) => Ok(()),
            Err(_) => {
                self.refused = Some(WorldErr::NoMemory);
                Err(WorldErr::NoMemory)
            }
        }
    }

    // Reports the books of all ends with their flags.
    pub(crate) fn write_flags(&mut self, out: &mut Vec<u8>) -> Result<(), WorldErr>
        requires { self.old.refused ≡ None }
        ensures made { Makes R.seen self.old result out.old.items out.new.items self.new (λ q w. Flags ∷ []) }
        ensures same { IsSame self.old self.new }
        ensures refused { self.new.refused ≡ refusal_of result }
    {
        match self.report(None, true, out) {
            Ok(()) => Ok(()),
            Err(_) => {
                self.refused = Some(WorldErr::NoMemory);
                Err(WorldErr::NoMemory)
            }
        }
    }

    // Reports what the paths offer that came by each end.
    pub(crate) fn write_adverts(&mut self, out: &mut Vec<u8>) -> Result<(), WorldErr>
        requires { self.old.refused ≡ None }
        ensures made { Makes R.seen self.old result out.old.items out.new.items self.new (λ q w. Adverts ∷ []) }
        ensures same { IsSame self.old self.new }
        ensures refused { self.new.refused ≡ refusal_of result }
    {
        match self.adverts(out) {
            Ok(()) => Ok(()),
            Err(_) => {
                self.refused = Some(WorldErr::NoMemory);
                Err(WorldErr::NoMemory)
            }
        }
    }

    // Delivers the datagram at a place, counted from 0, and appends its trace line where the trace is on; where nothing is there
    // nothing happens.
    pub(crate) fn deliver<W: Watch>(
        &mut self,
        place: usize,
        watch: &mut W,
        out: &mut Vec<u8>,
    ) -> Result<(), WorldErr>
        requires { self.old.refused ≡ None }
        ensures made { Makes R.seen self.old result out.old.items out.new.items self.new (λ q w. Deliver place ∷ []) }
        ensures same { IsSame self.old self.new }
        ensures refused { self.new.refused ≡ refusal_of result }
        ensures only { result ≡ Err refusal.NoMemory → self.old.trace ≡ true }
        ensures told { Tells W.saw R.seen self.old result watch.old watch.new (λ q w. sights q (Deliver place ∷ []) w) }
    {
        let mut heard = None;
        let ran = self.hand_on(place, &mut heard, out);
        show_delivered(watch, self, place, heard, &ran);
        ran
    }

    // The same, unseen. `seen` becomes what the node made of it.
    fn hand_on(
        &mut self,
        place: usize,
        seen: &mut Option<Heard>,
        out: &mut Vec<u8>,
    ) -> Result<(), WorldErr>
        requires going { self.old.refused ≡ None }
        requires unseen { seen.old ≡ None }
        ensures seen { (q : ℕ) (w : AWorld) → Agrees R.seen q self.old w → seen.new ≡ heard_there q w place (slice_get w.flight place) }
        ensures made { Makes R.seen self.old result out.old.items out.new.items self.new (λ q w. Deliver place ∷ []) }
        ensures same { IsSame self.old self.new }
        ensures refused { self.new.refused ≡ refusal_of result }
        ensures only { result ≡ Err refusal.NoMemory → self.old.trace ≡ true }
    {
        let Some((end, dst)) = self.mail.take(place, &mut self.hand) else {
            return Ok(());
        };
        self.delivered = self.delivered.saturating_add(1);
        let bytes = self.hand.bytes();
        let heard = hand_over(&mut self.nodes, &mut self.mail, end, dst, bytes);
        *seen = heard;
        if self.mail.is_full() {
            self.refused = Some(WorldErr::Crowded);
            return Err(WorldErr::Crowded);
        }
        match tell(
            &mut self.line,
            self.names.as_slice(),
            self.trace,
            end,
            bytes,
            heard,
            out,
        ) {
            Ok(()) => Ok(()),
            Err(_) => {
                self.refused = Some(WorldErr::NoMemory);
                Err(WorldErr::NoMemory)
            }
        }
    }

    // Time passes, at most half a period.
    pub(crate) fn piece<W: Watch>(&mut self, ms: u32, watch: &mut W) -> Result<(), WorldErr>
        requires going { self.old.refused ≡ None }
        requires short { ms ≤ 2 * self.old.quarter }
        ensures made { (t : List ℕ) → Makes R.seen self.old result t t self.new (λ q w. Piece ms ∷ []) }
        ensures same { IsSame self.old self.new }
        ensures refused { self.new.refused ≡ refusal_of result }
        ensures crowded { IfErr result (λ e. e ≡ refusal.Crowded) }
        ensures told { Tells W.saw R.seen self.old result watch.old watch.new (λ q w. sights q (Piece ms ∷ []) w) }
    {
        let ran = self.pass_time(ms);
        show_waited(watch, self, ms, &ran);
        ran
    }

    // The same, unseen.
    fn pass_time(&mut self, ms: u32) -> Result<(), WorldErr>
        requires going { self.old.refused ≡ None }
        requires short { ms ≤ 2 * self.old.quarter }
        ensures made { (t : List ℕ) → Makes R.seen self.old result t t self.new (λ q w. Piece ms ∷ []) }
        ensures same { IsSame self.old self.new }
        ensures refused { self.new.refused ≡ refusal_of result }
        ensures crowded { IfErr result (λ e. e ≡ refusal.Crowded) }
    {
        wait_all(&mut self.nodes, &mut self.mail, &mut self.words, ms);
        if self.mail.is_full() {
            self.refused = Some(WorldErr::Crowded);
            return Err(WorldErr::Crowded);
        }
        Ok(())
    }

    // Takes away the datagram at a place, counted from 0; where nothing is there nothing happens.
    pub(crate) fn lose(&mut self, place: usize) -> Result<(), WorldErr>
        requires { self.old.refused ≡ None }
        ensures made { (t : List ℕ) → Makes R.seen self.old result t t self.new (λ q w. Lose place ∷ []) }
        ensures same { IsSame self.old self.new }
        ensures refused { self.new.refused ≡ refusal_of result }
        ensures crowded { IfErr result (λ e. e ≡ refusal.Crowded) }
    {
        let _ = self.mail.take(place, &mut self.hand);
        let _ = self.mail.len();
        Ok(())
    }

    // Puts the datagram at a place, counted from 0, in flight once more; where nothing is there nothing happens.
    pub(crate) fn copy(&mut self, place: usize) -> Result<(), WorldErr>
        requires { self.old.refused ≡ None }
        ensures made { (t : List ℕ) → Makes R.seen self.old result t t self.new (λ q w. Copy place ∷ []) }
        ensures same { IsSame self.old self.new }
        ensures refused { self.new.refused ≡ refusal_of result }
        ensures crowded { IfErr result (λ e. e ≡ refusal.Crowded) }
    {
        let Some((end, dst)) = self.mail.look(place, &mut self.hand) else {
            return Ok(());
        };
        let bytes = self.hand.bytes();
        self.mail.put(end, dst, bytes);
        if self.mail.is_full() {
            self.refused = Some(WorldErr::Crowded);
            return Err(WorldErr::Crowded);
        }
        Ok(())
    }

    // From now on deliveries are traced, or not.
    pub(crate) fn set_trace(&mut self, on: bool) -> Result<(), WorldErr>
        requires { self.old.refused ≡ None }
        ensures made { (t : List ℕ) → Makes R.seen self.old result t t self.new (λ q w. Trace on ∷ []) }
        ensures names { self.new.names ≡ self.old.names }
        ensures quarter { self.new.quarter ≡ self.old.quarter }
        ensures refused { self.new.refused ≡ refusal_of result }
        ensures crowded { IfErr result (λ e. e ≡ refusal.Crowded) }
    {
        self.trace = on;
        Ok(())
    }

    // Puts bytes in flight to an end, with a destination.
    pub(crate) fn inject(&mut self, end: u16, dst: Addr, bytes: &[u8]) -> Result<(), WorldErr>
        requires going { self.old.refused ≡ None }
        requires short { length bytes.now ≤ 4096 }
        ensures made { (t : List ℕ) (a : Arrival) → IsArrival bytes.now a → Makes R.seen self.old result t t self.new (λ q w. Inject end dst a ∷ []) }
        ensures same { IsSame self.old self.new }
        ensures refused { self.new.refused ≡ refusal_of result }
        ensures crowded { IfErr result (λ e. e ≡ refusal.Crowded) }
    {
        self.mail.put(end, dst, bytes);
        if self.mail.is_full() {
            self.refused = Some(WorldErr::Crowded);
            return Err(WorldErr::Crowded);
        }
        Ok(())
    }

    // An application asks something of a node; where there is no such node nothing happens.
    pub(crate) fn call(&mut self, node: u16, call: &LocalCall) -> Result<(), WorldErr>
        requires going { self.old.refused ≡ None }
        requires fit { IsFitCall (call_of call.now) }
        ensures made { (t : List ℕ) → Makes R.seen self.old result t t self.new (λ q w. At node (call_of call.now) ∷ []) }
        ensures same { IsSame self.old self.new }
        ensures refused { self.new.refused ≡ refusal_of result }
        ensures crowded { IfErr result (λ e. e ≡ refusal.Crowded) }
    {
        call_at(&mut self.nodes, &mut self.mail, node, call);
        if self.mail.is_full() {
            self.refused = Some(WorldErr::Crowded);
            return Err(WorldErr::Crowded);
        }
        Ok(())
    }

    // A node forgets all but its local senders and wants; where there is no such node nothing happens.
    pub(crate) fn clear(&mut self, node: u16) -> Result<(), WorldErr>
        requires { self.old.refused ≡ None }
        ensures made { (t : List ℕ) → Makes R.seen self.old result t t self.new (λ q w. ClearAt node ∷ []) }
        ensures same { IsSame self.old self.new }
        ensures refused { self.new.refused ≡ refusal_of result }
        ensures crowded { IfErr result (λ e. e ≡ refusal.Crowded) }
    {
        clear_at(&mut self.nodes, node);
        let _ = self.mail.len();
        Ok(())
    }

    // The routing in which these hops are the tree of the group and source. `None` exactly where they cannot be. `NoMemory`, only
    // where there is room for the hops: memory ran out for the routing, or for the checks.
    pub(crate) fn routing_with(
        &self,
        group: Addr,
        source: Addr,
        hops: &[LinkHop],
    ) -> Result<Option<Routing>, NoMemory>
        ensures moved { IfOk result (λ moved. IfSome moved (λ r. r ≡ rerouted self.now.post.net group source hops.now)) }
        ensures can { IfOk result (λ moved. IsSome moved ↔ CanMove self.now.post.net group source hops.now) }
        ensures room { OnErr result (length (rerouted self.now.post.net group source hops.now).hops ≤ 8192) }
    {
        let routing = self.mail.wires().routing();
        if !routing.has_room_for_tree(group, source, hops) {
            return Ok(None);
        }
        match routing.reroute(group, source, hops) {
            Ok(routing) => Ok(Some(routing)),
            Err(HopErr::NotTree | HopErr::Loop { .. }) => Ok(None),
            Err(HopErr::NoMemory) => Err(NoMemory),
        }
    }

    // The network has this routing from now on, in which these hops are the tree of the group and source. Each node
    // gets its new routes.
    pub(crate) fn reroute(
        &mut self,
        group: Addr,
        source: Addr,
        hops: &[LinkHop],
        routing: Routing,
    ) -> Result<(), WorldErr>
        requires going { self.old.refused ≡ None }
        requires routing { routing ≡ rerouted self.old.post.net group source hops.now }
        ensures made { (t : List ℕ) → Makes R.seen self.old result t t self.new (λ q w. Reroute group source hops.now ∷ []) }
        ensures same { IsSame self.old self.new }
        ensures refused { self.new.refused ≡ refusal_of result }
        ensures crowded { IfErr result (λ e. e ≡ refusal.Crowded) }
    {
        let _ = group;
        let _ = source;
        let _ = hops;
        self.mail.set_routing(routing);
        move_all(&mut self.nodes, &mut self.mail, &mut self.routes);
        if self.mail.is_full() {
            self.refused = Some(WorldErr::Crowded);
            return Err(WorldErr::Crowded);
        }
        Ok(())
    }

    // A pass: delivers what is in flight at its start, in order; what is sent meanwhile stays.
    pub(crate) fn pass<W: Watch>(
        &mut self,
        watch: &mut W,
        out: &mut Vec<u8>,
    ) -> Result<(), WorldErr>
        requires { self.old.refused ≡ None }
        ensures made { Makes R.seen self.old result out.old.items out.new.items self.new (λ q w. pass q w) }
        ensures same { IsSame self.old self.new }
        ensures refused { self.new.refused ≡ refusal_of result }
        ensures only { result ≡ Err refusal.NoMemory → self.old.trace ≡ true }
        ensures told { Tells W.saw R.seen self.old result watch.old watch.new (λ q w. sights q (pass q w) w) }
    {
        let count = self.in_flight();
        for _ in 0..count {
            self.deliver(0, watch, out)?;
        }
        Ok(())
    }

    // So many passes.
    pub(crate) fn passes<W: Watch>(
        &mut self,
        times: u32,
        watch: &mut W,
        out: &mut Vec<u8>,
    ) -> Result<(), WorldErr>
        requires { self.old.refused ≡ None }
        ensures made { Makes R.seen self.old result out.old.items out.new.items self.new (λ q w. passes q times w) }
        ensures same { IsSame self.old self.new }
        ensures refused { self.new.refused ≡ refusal_of result }
        ensures only { result ≡ Err refusal.NoMemory → self.old.trace ≡ true }
        ensures told { Tells W.saw R.seen self.old result watch.old watch.new (λ q w. sights q (passes q times w) w) }
    {
        for _ in 0..times {
            self.pass(watch, out)?;
        }
        Ok(())
    }

    // Half a period, in milliseconds.
    pub(crate) fn half_ms(&self) -> u32
        ensures half { result ≡ 2 * self.now.quarter }
        ensures some { 0 < result }
    {
        2 * self.quarter
    }

    // Half a period.
    pub(crate) fn half_period<W: Watch>(&mut self, watch: &mut W) -> Result<(), WorldErr>
        requires { self.old.refused ≡ None }
        ensures made { (t : List ℕ) → Makes R.seen self.old result t t self.new (λ q w. Piece (2 * q) ∷ []) }
        ensures same { IsSame self.old self.new }
        ensures refused { self.new.refused ≡ refusal_of result }
        ensures crowded { IfErr result (λ e. e ≡ refusal.Crowded) }
        ensures told { Tells W.saw R.seen self.old result watch.old watch.new (λ q w. sights q (Piece (2 * q) ∷ []) w) }
    {
        let ms = self.half_ms();
        self.piece(ms, watch)
    }

    // Half a period, and a pass.
    fn half<W: Watch>(&mut self, watch: &mut W, out: &mut Vec<u8>) -> Result<(), WorldErr>
        requires { self.old.refused ≡ None }
        ensures made { Makes R.seen self.old result out.old.items out.new.items self.new (λ q w. half q w) }
        ensures same { IsSame self.old self.new }
        ensures refused { self.new.refused ≡ refusal_of result }
        ensures only { result ≡ Err refusal.NoMemory → self.old.trace ≡ true }
        ensures told { Tells W.saw R.seen self.old result watch.old watch.new (λ q w. sights q (half q w) w) }
    {
        self.half_period(watch)?;
        self.pass(watch, out)
    }

    // A round: four times half a period, and a pass.
    fn round<W: Watch>(&mut self, watch: &mut W, out: &mut Vec<u8>) -> Result<(), WorldErr>
        requires { self.old.refused ≡ None }
        ensures made { Makes R.seen self.old result out.old.items out.new.items self.new (λ q w. a_round q w) }
        ensures same { IsSame self.old self.new }
        ensures refused { self.new.refused ≡ refusal_of result }
        ensures only { result ≡ Err refusal.NoMemory → self.old.trace ≡ true }
        ensures told { Tells W.saw R.seen self.old result watch.old watch.new (λ q w. sights q (a_round q w) w) }
    {
        for _ in 0..4u32 {
            self.half(watch, out)?;
        }
        Ok(())
    }

    // So many rounds; the watcher is told of each.
    pub(crate) fn rounds<W: Watch>(
        &mut self,
        times: u32,
        watch: &mut W,
        out: &mut Vec<u8>,
    ) -> Result<(), WorldErr>
        requires { self.old.refused ≡ None }
        ensures made { Makes R.seen self.old result out.old.items out.new.items self.new (λ q w. rounds q times w) }
        ensures same { IsSame self.old self.new }
        ensures refused { self.new.refused ≡ refusal_of result }
        ensures only { result ≡ Err refusal.NoMemory → self.old.trace ≡ true }
        ensures told { Tells W.saw R.seen self.old result watch.old watch.new (λ q w. rounds_sights q times times w) }
    {
        for done in 0..times {
            self.round(watch, out)?;
            watch.round_over(self, done + 1, times);
        }
        Ok(())
    }
}

// What watches sees the network behind a delivery, where that was made.
fn show_delivered<R: Router + Drop, W: Watch>(
    watch: &mut W,
    world: &World<R>,
    place: usize,
    heard: Option<Heard>,
    ran: &Result<(), WorldErr>,
)
    ensures { (q : ℕ) (w : AWorld) → IfOk ran.now (λ u. Agrees R.seen q world.now w) → ShowsRun W.saw ran.now watch.old watch.new (delivery w place heard) }
{
    match ran {
        Ok(()) => show_heard(watch, world, place, heard),
        Err(_) => {}
    }
}

// What watches sees what a node made of a datagram, where one did.
fn show_heard<R: Router + Drop, W: Watch>(
    watch: &mut W,
    world: &World<R>,
    place: usize,
    heard: Option<Heard>,
)
    ensures { (q : ℕ) (w : AWorld) → Agrees R.seen q world.now w → Shows W.saw watch.old watch.new (delivery w place heard) }
{
    match heard {
        Some(heard) => watch.delivered(world, place, heard),
        None => {}
    }
}

// What watches sees the network behind a time, where that passed.
fn show_waited<R: Router + Drop, W: Watch>(
    watch: &mut W,
    world: &World<R>,
    ms: u32,
    ran: &Result<(), WorldErr>,
)
    ensures { (q : ℕ) (w : AWorld) → IfOk ran.now (λ u. Agrees R.seen q world.now w) → ShowsRun W.saw ran.now watch.old watch.new (Waited w ms ∷ []) }
{
    match ran {
        Ok(()) => watch.waited(world, ms),
        Err(_) => {}
    }
}
