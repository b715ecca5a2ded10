//! Loss in a network: what its nodes keep where refreshes are lost as RFC 2205 allows.
//!
//! Where over each hop of a live sender's tree of any three successive Paths one arrives in time, paths never die, however long it
//! goes on and however many datagrams are lost (RFC 2205, 3.7). Neither does a reservation over a hop, where it is said there and
//! taken. Whatever is lost, what nobody below wants is gone in windows: stretches of 5.25 refresh periods or more, in which whatever was in
//! flight arrives or is lost. Definitions stand in `specs/`, and each public function of `laws` has an empty body and a law as its promise.
#![tactic(auto)]

pub mod laws;

pub use laws::{
    a_network_settles_in_windows, a_pair_is_lossy, a_path_is_left_over_in_windows,
    a_reservation_is_left_over_in_windows, a_reservation_never_dies, a_session_settles_in_windows,
    arrivals_are_taken_in_windows, blockades_are_gone_in_windows, errors_are_gone_in_windows,
    nothing_stale_is_left_in_windows, paths_become_sound_in_windows, paths_never_die,
    paths_settle_in_windows, reservations_become_sound_in_windows, said_resvs_are_kept_in_windows,
};
