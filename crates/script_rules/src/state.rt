//! What the lines of a script have said so far, as their rules ask it.
ghost use Rattle.std.specs.Prelude.{◌≡◌, ◌≤◌, ◌*◌, ◌/◌, [], IsNone, count_by, length, map, nat_lt, unwrap_or};
ghost use Rattle.std.specs.Option.{ForSome};
ghost use Rattle.stale_state.specs.Fit.{AreFitAll};
ghost use Rattle.stale_state.specs.Listed.{IsOfEnds, facts_in, nodes_in};
ghost use Rattle.script_grammar.specs.Rules.{asks_adverts, is_report};
ghost use Rattle.script_rules.specs.Events.{event_of};
ghost use Rattle.script_rules.specs.Fitness.{ArePlaced, fit_all_prop};
ghost use Rattle.script_rules.specs.Forcing.{IsOfNet};

use crate::history::History;
use crate::names::NameTable;
use crate::want_table::WantTable;
use network_model::Event;
use rsvp_base::{EndName, NoMemory, Session};
use rsvp_messages::{Message, MsgErr};
use stale_state::Leavings;
use std::alloc::Global;
use tree_model::LocalSender;
use tree_routing::{Routing, Topology};

// The period in milliseconds where no line gives one (RFC 2205, 3.7).
const USUAL_PERIOD: u32 = 30_000;

/// The lines so far. Names are found by their hash.
#[derive(Drop)]
pub struct ScriptState {
    pub alloc: Global,
    /// In milliseconds, where a line gave one.
    pub period: Option<u32>,
    /// Where the random words start, where a line said so.
    pub seed: Option<u64>,
    /// The names of the nodes, by number.
    pub nodes: NameTable,
    /// The names of the ends, by number.
    pub names: NameTable,
    /// The same names, as faults tell them.
    pub end_names: Vec<EndName>,
    pub topology: Topology,
    /// The ends of which a line says the latency.
    pub timed: Vec<u16>,
    /// The routing in force, from the first tree that moved on.
    pub force: Option<Routing>,
    /// What is left over at the nodes.
    pub left: Leavings,
    /// The sessions that were named, at most 32.
    pub sessions: Vec<Session>,
    /// Who sends, at most 16 in a session.
    pub senders: Vec<LocalSender>,
    /// Who wants what, at most 16 units of a session at a node.
    pub wants: WantTable,
    /// All that happened, for proofs alone, with what its bytes spell.
    pub events: History<Event, Option<Result<Message, MsgErr>>>,
    /// Whether anything happened.
    pub begun: bool,
    /// How many reports there are, at most 16.
    pub reports: usize,
    /// How many lines ask what the paths offer, at most 16.
    pub adverts: usize,
    pub ghost minute: { unwrap_or period 30000 ≤ 60000 },
    pub ghost long: { 1 ≤ unwrap_or period 30000 / 4 },
    pub ghost quarters: { 4 * (unwrap_or period 30000 / 4) ≡ unwrap_or period 30000 },
    pub ghost same_nodes: { topology.nodes ≡ length nodes },
    pub ghost few_nodes: { length nodes ≤ 256 },
    pub ghost placed: { ArePlaced (length nodes) topology.ends },
    pub ghost moved: { map event_of events.items ≡ [] → IsNone force },
    pub ghost began: { begun ≡ nat_lt 0 (length events.items) },
    pub ghost counted: { reports ≡ count_by is_report (map event_of events.items) },
    pub ghost few_reports: { reports ≤ 16 },
    pub ghost asked: { adverts ≡ count_by asks_adverts (map event_of events.items) },
    pub ghost few_adverts: { adverts ≤ 16 },
    pub ghost of_net: { ForSome force (λ routing. IsOfNet topology routing) },
    // Each end has a name.
    pub ghost ends_there: { length names ≡ length topology.ends },
    pub ghost few_names: { length names ≤ 65536 },
    pub ghost same_names: { names ≡ end_names.items },
    // Where memory ran out, what is left over may have a place for one node more.
    pub ghost left_nodes: { length nodes ≤ nodes_in left },
    pub ghost left_there: { IsOfEnds topology.ends left },
    pub ghost left_fit: { AreFitAll (unwrap_or period 30000 / 4) topology (facts_in left) } by { fit_all_prop (unwrap_or period 30000 / 4) topology (facts_in left) },
}

impl ScriptState {
    ghost use Rattle.std.specs.Prelude.{IfOk};
    ghost use Rattle.script_grammar.specs.Draft.{nothing, period_of};
    ghost use Rattle.script_rules.specs.Said.{draft_of};

    /// No lines. `NoMemory`: there was no room for what is kept of them.
    pub fn open(alloc: Global) -> Result<ScriptState, NoMemory>
        ensures { IfOk result (λ c. draft_of c ≡ nothing) }
    {
        Ok(ScriptState {
            alloc,
            period: None,
            seed: None,
            nodes: NameTable::new(alloc),
            names: NameTable::new(alloc),
            end_names: Vec::new(alloc),
            topology: Topology::new(alloc)?,
            timed: Vec::new(alloc),
            force: None,
            left: Leavings::new(alloc),
            sessions: Vec::new(alloc),
            senders: Vec::new(alloc),
            wants: WantTable::new(alloc),
            events: History::new(),
            begun: false,
            reports: 0,
            adverts: 0,
        })
    }

    /// The period, in milliseconds.
    pub fn refresh_period(&self) -> u32
        ensures period { result ≡ period_of (draft_of self.now) }
        ensures minute { result ≤ 60000 }
    {
        self.period.unwrap_or(USUAL_PERIOD)
    }
}
