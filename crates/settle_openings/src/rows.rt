//! Worked rows: small networks, by computing.
ghost use Rattle.settle_openings.specs.Worked.{AConfirmationFlies, APairOpens, NothingLastsWithoutPasses, WhatDoesNotFitIsRefused};

/// A pair of nodes in which a receiver asks and a host begins to send, before anything is delivered, is untouched; and a round later what is
/// asked for is held.
pub fn a_pair_opens()
    ensures { APairOpens }
{}

/// What is kept does not last where no pass follows the half periods: in the pair that is served, after eleven of them nothing is held.
pub fn nothing_lasts_without_passes()
    ensures { NothingLastsWithoutPasses }
{}

/// Nor are only Paths and Resvs in flight where what is asked for does not fit: a byte per second more than there is is refused, and a ResvErr comes.
pub fn what_does_not_fit_is_refused()
    ensures { WhatDoesNotFitIsRefused }
{}

/// Nor where a receiver wants to be confirmed: in the third pass a ResvConf comes.
pub fn a_confirmation_flies()
    ensures { AConfirmationFlies }
{}
