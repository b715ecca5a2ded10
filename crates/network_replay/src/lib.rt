//! A network in replay: its nodes, the datagrams in flight, and what the events of a script do to them.
//!
//! `World` runs a network of routers. Each event is proved to be its steps in the model of `network_model`: whatever world of
//! the model agrees with the network before, the world after the steps agrees with it after, and the text is that of the
//! steps. The routers are abstract (`Router`): all that is asked of one is the rule of a router. What watches (`Watch`) is shown
//! each delivery, each piece of a wait and each round, and nothing hangs on what it makes of them. It stands on
//! `network_flight`, `network_model` and `router_rules`.
#![tactic(auto)]

mod adverts;
mod mail;
mod moving;
mod no_tree;
mod playing;
mod report;
mod router;
mod stepping;
mod telling;
mod watch;
mod world;
mod world_err;

pub use mail::Mail;
pub use no_tree::NoTree;
pub use router::Router;
pub use watch::{Both, Unwatched, Watch};
pub use world::World;
pub use world_err::WorldErr;
