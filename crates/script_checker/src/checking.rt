//! Lines are checked as the player of a script asks.
ghost use Rattle.std.specs.Prelude.{◌≡◌, ◌↔◌, ◌≤◌, ◌==◌, IfOk, IsTrue, Some, length, map};
ghost use Rattle.std.specs.List.{list_all};
ghost use Rattle.std.specs.Str.{byte};
ghost use Rattle.script_grammar.specs.Draft.{end_number, node_number};
ghost use Rattle.script_grammar.specs.LineKinds.{script_line_of};
ghost use Rattle.script_grammar.specs.Values.{hop_value};
ghost use Rattle.script_grammar.specs.declared.line.ScriptLine.TheVariants as said;
ghost use Rattle.script_run.specs.Checking.{Feeds};
ghost use Rattle.script_rules.specs.Said.{draft_of};
ghost use Rattle.script_grammar.specs.Breaks.{IsLinked};

use crate::checker::Checker;
use crate::rules::add;
use crate::starting::{copies, quarter};
use network_model::Event;
use rsvp_base::{Addr, NoMemory, Session, StyleKind};
use script_grammar::{Fault, HopEnds, LinesBefore, Stop, read_line};
use script_rules::ScriptState;
use script_run::{Checks, Start};
use script_words::Unread;
use stale_state::LeftOver;
use tree_routing::{HopFault, LinkHop};

// Where the random words start where no line says so.
const USUAL_SEED: u64 = 1;

impl LinesBefore for Checker {
    ghost use Rattle.script_checker.specs.Checked.{draft_of as draft_so_far};

    ghost lines = { draft_so_far };

    fn period(&self) -> u32 {
        self.state.refresh_period()
    }

    fn has_node(&self, name: &[u8]) -> bool {
        self.state.nodes.find(name).is_some()
    }

    fn has_end(&self, name: &[u8]) -> bool {
        self.state.names.find(name).is_some()
    }

    fn is_linked(&self, name: &[u8]) -> bool {
        is_linked(&self.state, name)
    }

    fn has_room_for_session(&self, session: Session) -> bool {
        script_rules::has_room_for_session(&self.state, session)
    }

    fn standing_style(&self, node: &[u8], session: Session) -> Result<Option<StyleKind>, NoMemory> {
        let node = node_number(&self.state, node);
        let wants = self.state.wants.of(self.state.alloc, node, session)?;
        Ok(wants.first().map(|want| want.style))
    }

    fn hop_fault(&self, group: Addr, source: Addr, hop: &HopEnds) -> Option<HopFault> {
        self.state
            .topology
            .growing_fault(group, source, hop_between(&self.state, hop))
    }

    fn tree_fault(
        &self,
        source: Addr,
        hops: &[HopEnds],
    ) -> Result<Option<(usize, HopFault)>, NoMemory> {
        let hops = hops_between(&self.state, hops)?;
        Ok(self.state.topology.tree_fault(source, hops.as_slice()))
    }
}

impl Checks for Checker {
    fn feed(&mut self, line: &[u8]) -> Result<Option<Event>, Stop> {
        // No words are looked for in a line that says nothing.
        if is_skipped(line) {
            return Ok(None);
        }
        take(&mut self.state, line)
    }

    fn start(&self) -> Result<Start, NoMemory> {
        let state = &self.state;
        Ok(Start {
            quarter: quarter(state),
            seed: state.seed.unwrap_or(USUAL_SEED),
            routing: state.topology.copy()?.close()?,
            names: copies(state.alloc, state.end_names.as_slice())?,
        })
    }

    fn left(&self) -> &[LeftOver] {
        self.state.left.facts()
    }
}

// Whether a line says nothing: it is empty, a comment, or of spaces alone.
#[tactic(auto, using(crate::proofs::FedLines::blank_said, crate::proofs::FedLines::empty_said))]
fn is_skipped(line: &[u8]) -> bool
    ensures { IsTrue result → script_line_of line.now ≡ Some said.Skipped }
{
    match line.first() {
        None => true,
        Some(first) => *first == b'#' || is_blank(line),
    }
}

// Whether a line is of spaces alone.
fn is_blank(line: &[u8]) -> bool
    ensures { result ≡ list_all (λ c. c == byte " ") line.now }
{
    line.iter().all(|c| *c == b' ')
}

// Takes a line.
fn take(state: &mut ScriptState, line: &[u8]) -> Result<Option<Event>, Stop>
    requires { length line.now ≤ 2048 }
    ensures { Feeds (draft_of state.old) line.now result (draft_of state.new) }
{
    let alloc = state.alloc;
    let mut words = Vec::new(alloc);
    match read_line(alloc, line, &mut words) {
        Ok(said) => add(state, said),
        Err(Unread::Word) => Err(Stop::Bad(Fault::Word)),
        Err(Unread::NoMemory) => Err(Stop::NoMemory),
    }
}

// The hops between these ends.
fn hops_between(state: &ScriptState, pairs: &[HopEnds]) -> Result<Vec<LinkHop>, NoMemory>
    ensures { IfOk result (λ hops. hops.items ≡ map (hop_value (draft_of state.now)) pairs.now) }
{
    let mut hops = Vec::new(state.alloc);
    for ends in pairs {
        hops.push(hop_between(state, ends))?;
    }
    Ok(hops)
}

// The hop between two ends; an end that was not declared has the number 0.
fn hop_between(state: &ScriptState, ends: &HopEnds) -> LinkHop
    ensures { result ≡ hop_value (draft_of state.now) ends.now }
{
    LinkHop {
        from: end_number(state, ends.from.bytes()),
        to: end_number(state, ends.to.bytes()),
    }
}

// The number of an end; 0 where it was not declared.
fn end_number(state: &ScriptState, name: &[u8]) -> u16
    ensures { result ≡ end_number (draft_of state.now) name.now }
{
    match state.names.find(name) {
        Some(end) => end as u16,
        None => 0,
    }
}

// The number of a node; 0 where it was not declared.
fn node_number(state: &ScriptState, name: &[u8]) -> u16
    ensures { result ≡ node_number (draft_of state.now) name.now }
{
    match state.nodes.find(name) {
        Some(node) => node as u16,
        None => 0,
    }
}

// Whether the end of this name is in a link.
fn is_linked(state: &ScriptState, name: &[u8]) -> bool
    ensures { IsTrue result ↔ IsLinked (draft_of state.now) name.now }
{
    state.topology.is_in_link(end_number(state, name))
}
