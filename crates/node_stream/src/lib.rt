//! One router over a stream: frames in, answers out.
//!
//! A frame is a kind, a length and as many bytes: `frame_of` reads one, `fault_of` looks whether it is in range, and what breaks a rule is
//! a `Blame`, with its reason and its text. The first says where the router stands (`read_place`), each one behind it what comes to it: a
//! datagram, time that passes, or that it is cleared. `serve` reads a frame, lets the router do what its rule says, and writes the
//! frames of all that it sends and of what it made of a datagram, before the source is asked for more. Its clause says by how it ended
//! exactly which frames were taken and what was written. Memory is taken before the first byte is read, and at the first frame,
//! alone. It stands on `network_replay` (what is asked of a router), `laws_bounds` (no answer lacks room), `router_rules`,
//! `rsvp_objects`, `value_texts` and `byte_streams`.
#![tactic(auto)]

mod acting;
mod advice;
mod answers;
mod blame;
mod ending;
mod frame;
pub mod laws;
mod layout;
mod placing;
mod posting;
mod range;
mod reading;
mod serves;
mod serving;
mod state;

pub use advice::put_advice;
pub use answers::{put_heard, put_sent};
pub use blame::{Blame, why_of};
pub use ending::Ending;
pub use frame::{Frame, datagram_in, frame_at, length_at};
pub use placing::{Place, PlaceErr, read_place};
pub use range::fault_of;
pub use serves::Serves;
pub use serving::serve;
