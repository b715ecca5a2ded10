//! Worked rows: small networks, by computing.
ghost use Rattle.settle_adverts.specs.Worked.{ASenderIsAdvertised, AnAdspecIsLeftOver};

/// The first world of a script with a left-over path that keeps an ADSPEC meets the premises of `adverts_are_exact`, and at its start what
/// is promised does not hold yet.
pub fn an_adspec_is_left_over()
    ensures { AnAdspecIsLeftOver }
{}

/// A pair of nodes, one of which sends and advertises, meets the premises of `adverts_settle`, and what is promised does not hold yet; two
/// Paths later the other node keeps the advertisement.
pub fn a_sender_is_advertised()
    ensures { ASenderIsAdvertised }
{}
