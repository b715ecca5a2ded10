//! Values that every layer shares: addresses, sessions, senders, hops, interfaces, errors, rates, flows,
//! parts of reservations, the keys of a book's entries, and the names of nodes and ends.
//!
//! Each value is what RFC 2205 and RFC 2210 mean by it, and a caller sees nothing else of it: a `Rate` is a number, a
//! `Flow` a token bucket, `Senders` a finite set. No call takes memory.
//!
//! The finite maps of the whole repository stand here too, as definitions and lemmas: `Table`, in `specs/`.
#![tactic(auto)]

mod addr;
mod end_name;
mod entry_key;
mod err_spec;
mod flow;
mod hop;
mod iface;
mod part;
mod rate;
mod room;
mod senders;
mod session;
pub mod sorted;
mod style;

pub use addr::Addr;
pub use end_name::EndName;
pub use entry_key::EntryKey;
pub use err_spec::ErrSpec;
pub use flow::{Flow, Peak};
pub use hop::Hop;
pub use iface::Iface;
pub use part::Part;
pub use rate::Rate;
pub use room::{Full, NoMemory};
pub use senders::Senders;
pub use session::{Sender, Session};
pub use style::{StyleKind, Unit};
