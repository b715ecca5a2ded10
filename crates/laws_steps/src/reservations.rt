//! Laws of reservations (RFC 2205, 3.1.4, 3.1.6, 3.5 and 3.7; RFC 2209, 2: Resv, ResvTear).
ghost use Rattle.laws_steps.specs.ReservationLaws.{WhereAReservationFactComesFrom, WhatKeepsAReservationFact, WhatAResvSentSays, WhyAResvTearIsSent};

/// A reservation after a step was there before, with its flow and its death and no more names, or a Resv that came to this
/// node by its interface, from its next hop, asked for it.
#[tactic(auto, using(crate::proofs::Asking::where_a_reservation_fact_comes_from))]
pub fn where_a_reservation_fact_comes_from()
    ensures { WhereAReservationFactComesFrom }
{}

/// A reservation stays while it lives, its senders are known, and neither a Resv of its next hop, nor a ResvTear of that hop
/// that takes one of its names, nor a clear touches it; it loses the names alone of senders that are known no more.
#[tactic(auto, using(crate::proofs::Asking::what_keeps_a_reservation_fact))]
pub fn what_keeps_a_reservation_fact()
    ensures { WhatKeepsAReservationFact }
{}

/// A Resv that is sent asks for what goes toward a previous hop after the step, whole, with the address and period of its
/// node; a wildcard one with its SCOPE. It is a refresh, or what goes there changed.
#[tactic(auto, using(crate::proofs::Hopward::what_a_resv_sent_says))]
pub fn what_a_resv_sent_says()
    ensures { WhatAResvSentSays }
{}

/// A ResvTear is sent for units that went toward a previous hop before the step and do no more, with names of theirs that are
/// still via the hop.
pub fn why_a_resv_tear_is_sent()
    ensures { WhyAResvTearIsSent }
{}
