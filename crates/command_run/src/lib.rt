//! The command line, `rsvpd VERB [--seed N]`, and the top call: its words order a task, which is run from a source to a sink.
//!
//! `read_order` gives the order of the words, or tells that they are a faulty command line: exactly where clap's own definition gives
//! the command no matches, or what they say is no order; `laws` try that on the words that users write.
//! `run_command` replays a script on a network of routers, writes the demand of one, shows messages in words, grows a network and
//! runs it, serves one router over a stream of frames, or says which packets of a flow pass. Its clauses say by the status exactly what
//! was read and written, that a script that was replayed to its end heals itself (once its network has settled a report is the demand,
//! and the last one what `demand` writes of the script; and an `adverts` line behind which it only writes has the advertisements of
//! the routing that the lines say, of the senders that they advertise), and that a network that was grown and run reports what is
//! demanded. However a replay ends, what it ran is the run of the first lines of its file: at each step no book passes its capacity, no refusal changes a reservation, and blockades keep
//! their promises, and each settled report that was written whole is the demand. It stands on `script_run` and `grown_player`
//! for runs, on `script_theorem`, `laws_safety`, `laws_scripts` and `laws_grown` for what holds of them, on
//! `script_demand`, on `message_show`, on `node_stream` and on `load_policer`.
#![tactic(auto)]

mod command;
mod demanding;
mod ended;
mod growing;
pub mod laws;
mod order;
mod policing;
mod reading;
mod replaying;
mod serving;
mod showing;
mod status;
mod task;
mod texts;

pub use command::run_command;
pub use demanding::demand;
pub use ended::Ended;
pub use growing::grow;
pub use order::{NoOrder, Order};
pub use policing::police_packets;
pub use reading::read_order;
pub use replaying::{replay, status_of};
pub use serving::serve_router;
pub use showing::show_messages;
pub use status::Status;
pub use task::Task;

// For the callers of `run_command`.
pub use network_replay::{Unwatched, Watch};
