//! What a router sends to its previous hops: ResvTears of what went there and goes no more, Resvs of what goes there, and whom these
//! ask to confirm (RFC 2205, 2.2, 2.6, 3.3 and 3.5; RFC 2209, 2: RESV REFRESH).
//!
//! A lane is a session, a style and a previous hop. It is sent what changed since it was sent something last (`sent_state`), or all
//! where its session came due. Each message is that of the rule of a router. It stands on `router_state` and `laws_sends`.
#![tactic(auto)]

mod clearing;
mod lane_marks;
mod lane_sends;
mod marks;
mod opening;
mod rounds;
mod taking;
mod telling;
mod units;
mod upward;

pub use clearing::clear_lanes;
pub use lane_marks::{is_any_new, used_marks};
pub use lane_sends::tell_torn;
pub use marks::{marked_units, own_wish, unmark};
pub use rounds::{refresh_lanes, tear_lanes, tell_lanes};
pub use telling::{PriorOffer, keep_said, offered, tell_news, tell_sender, tell_tears};
pub use units::Units;
pub use upward::{hop_to, names_via, toward};
