//! The rules of script lines, each tested in the order of its faults: lines that declare a network or move a tree (`end`, `hop`, `link`,
//! `node`, `period`, `reroute`), that leave something over (`stale`, `reserve`), by which hosts ask (`sender`, `want`), and of all
//! else that happens (`event`); and the state that they share (`ScriptState`): what the lines so far have said, as the grammar sees it.
//!
//! Each call keeps what the line says, or gives the first rule that it breaks, as the grammar has it. The invariants of the state hold
//! between any two lines. A `History` is read by proofs alone, and takes no memory: a clause says what happened so far, and no code
//! can ask. It stands on `script_grammar` and `stale_state`.
#![tactic(auto)]

mod end;
mod entries;
mod event;
mod history;
mod hop;
mod keeping;
mod link;
mod listed;
mod names;
mod node;
mod own;
mod parts;
mod period;
mod reroute;
mod reserve;
mod sender;
mod sender_lists;
mod session;
mod stale;
mod state;
mod want;
mod want_table;

pub use end::{add_end, add_latency};
pub use event::{
    add_adverts, add_again, add_clear, add_deliver, add_flags, add_inject, add_lose, add_pass,
    add_report, add_report_end, add_rounds, add_trace, add_wait,
};
pub use history::History;
pub use hop::add_hop;
pub use keeping::{has_room_for_adverts, has_room_for_report, keep, keep_adverts, keep_report};
pub use link::add_link;
pub use names::NameTable;
pub use node::add_node;
pub use parts::{is_before_events, only_declares};
pub use period::{add_period, add_seed};
pub use reroute::{add_reroute, hop_between, hops_between};
pub use reserve::add_resv;
pub use sender::{add_advert, add_drop, add_send};
pub use sender_lists::{are_distinct, sender_values};
pub use session::{has_room_for_session, is_session, keep_call, name_session};
pub use stale::{add_hop_wall, add_path, add_sender_wall};
pub use state::ScriptState;
pub use want::{add_quit, add_want};
pub use want_table::WantTable;
