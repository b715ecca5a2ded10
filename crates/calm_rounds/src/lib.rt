//! Calm rounds, and loss: what can be said of any machine that refreshes what it keeps.
//!
//! Soft state (RFC 2205, 2.3) dies unless it is refreshed. In a calm round time passes for 1.5 to 2.5 refresh periods, what
//! was in flight at its beginning is gone at its end, and on each track with a refresh one arrives. From this alone it
//! follows how many rounds it takes until a hop keeps what it is told and nothing else (`laws`).
//!
//! A lifetime is made so that of K successive refreshes K - 1 may be lost (RFC 2205, 3.7; K = 3 here). Where of any three successive
//! refreshes on a track one arrives in time, less than 0.75 refresh periods after it was due, what is refreshed never dies (`loss_laws`).
//! Neither this premise nor that of calm rounds gives the other: in a calm round a refresh may come two periods late, and where
//! refreshes are lost as here, two neighbouring rounds may have none.
//!
//! Nothing here knows networks, messages or nodes: definitions stand in `specs/`, and each public function of `laws` and `loss_laws` has
//! an empty body and a law as its promise.
#![tactic(auto)]

mod claims;
pub mod laws;
pub mod loss_laws;

pub use claims::{Claim, Key};
pub use loss_laws::{
    a_lamp_meets_the_premises, a_lamp_settles_in_windows, a_mute_beacon_takes_the_windows,
    four_calm_rounds_make_a_window, more_loss_can_kill, only_what_is_said_is_kept_in_two_windows,
    what_is_not_renewed_dies_in_one_window, what_is_refreshed_is_kept,
    what_is_refreshed_is_kept_in_two_windows, what_is_refreshed_never_dies,
    what_is_refreshed_often_enough_never_dies,
};
