//! A network of routers: its worlds, its steps, and the run of a script, as definitions. Here stand the values in which a script
//! and a network speak of what happens.
#![tactic(auto)]

mod event;
mod excess;
pub mod laws;
mod local_call;
pub mod rows;

pub use event::Event;
pub use excess::Excess;
pub use local_call::LocalCall;
