//! Worked rows: small networks, by computing.
ghost use Rattle.settle_refreshes.specs.Worked.{AConfirmationGoesRound, AnErrorGoesRound, AnErrorIsInFlight};

/// In a pair of nodes with one sender a ResvErr that names nobody is in flight at the start: that meets the premises of
/// `only_refreshes_are_in_flight`, through any number of rounds of a script.
pub fn an_error_is_in_flight()
    ensures { AnErrorIsInFlight }
{}

/// Not without the premise on errors: where both nodes of a pair send, and each has reserved with a shared filter what the other sends, a
/// ResvErr that names nobody goes from one to the other and back, as a node sends one for a Resv that it cannot read. H is 1, and after
/// 29 rounds it still does.
pub fn an_error_goes_round()
    ensures { AnErrorGoesRound }
{}

/// Nor without the premise on confirmations, though nothing was left over, lost or injected: where what each of two senders sends goes to
/// the receiver by way of the other, and the receiver asks with a wildcard filter to be confirmed, each sender hands the other's
/// confirmation back to it, besides to the receiver, in each pass.
pub fn a_confirmation_goes_round()
    ensures { AConfirmationGoesRound }
{}
