//! The text of a replay, read back: no whole line of it says of an end that it holds more than its capacity.
//!
//! It puts together that no book passes its capacity in any world of a run (`laws_safety`), and that the lines of a text are read
//! again as they were written. Definitions stand in `specs/`, and each public function of `laws` has an empty body and a law as its
//! promise.
#![tactic(auto)]

pub mod laws;
