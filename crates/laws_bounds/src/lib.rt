//! Laws of one step of a router: what its tests say and what comes of each input (`lookups`, `inputs`), that it stays within bounds and
//! sends what is proper (`bounds`, `proper`), and how many messages it sends for one input (`sends`).
//!
//! The rules and the bounds are definitions of `router_rules`, and no proof above opens a rule that a law here speaks of: what is found
//! where, when each input is refused or dropped, what it leaves, and whom it answers. A router within bounds, with at most 16 interfaces,
//! sends at most 37,889 messages for one input: so whoever has room for as many never loses one. Each public function has an empty body
//! and a law as its promise; the statements are definitions in `specs/`, and the lemmas behind them, in `proofs/`, are for all crates
//! above.
#![tactic(auto)]

pub mod bounds;
pub mod inputs;
pub mod lookups;
pub mod proper;
pub mod sends;
