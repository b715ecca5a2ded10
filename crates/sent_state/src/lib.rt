//! What each lane was last sent: a lane is a session, a style and a previous hop, toward which requests go (RFC 2205, 1.1 and
//! 3.1.4). And how parts are written as what a Resv asks for, and names as what a ResvTear tears down.
//!
//! A `LaneTable` is a finite map from lane to the parts that went there last. Memory is taken when it is opened, and never
//! later.
#![tactic(auto)]

mod asking;
mod lane;
mod table;

pub use asking::{ask_of, gone_among, tear_of};
pub use table::LaneTable;
