//! Worked rows: small networks, by computing.
ghost use Rattle.settle_releases.specs.Worked.{AConfirmationComesBack, AMarkWaits, AReceiverAsksForLess, AReceiverQuits, AnotherStyleIsWanted, SomethingIsInFlight, WhatIsLeftOverStays};

/// In a pair of nodes, once the receiver is served, it quits: that meets the premises of the three laws on receivers that quit. When it has
/// quit, the network has not settled, and something is in flight, so that the one pass, which is H here, cannot be spared.
pub fn a_receiver_quits()
    ensures { AReceiverQuits }
{}

/// Or it asks for less: that meets the premises of the three laws on that. When it has asked, the network has not settled, and something is
/// in flight. In a line of two hops the end of the sender holds less after two passes, and not after one, and nothing is in flight then.
pub fn a_receiver_asks_for_less()
    ensures { AReceiverAsksForLess }
{}

/// Not without the premise that nothing is in flight, where H is 1: a ResvTear that a later Resv overtook takes what is wanted, in the pass
/// after another session is quit; and a copy of a Resv that asks to be confirmed is answered in that pass, so that a ResvConf is in flight.
pub fn something_is_in_flight()
    ensures { SomethingIsInFlight }
{}

/// Nor without the premise that the demands fit, though there is room: where the sender's node asks in another style, it refuses what a
/// receiver asks for in place of more, and what a router asks for when the receiver behind it quits. So the end holds what it held, and
/// a ResvErr is in flight.
pub fn another_style_is_wanted()
    ensures { AnotherStyleIsWanted }
{}

/// Nor without the premise that the network has settled: when a receiver quits, a reservation that is left over of another session stands.
pub fn what_is_left_over_stays()
    ensures { WhatIsLeftOverStays }
{}

/// That nothing is in flight in the end needs that no want has a mark: where a mark waits at a router, the Resv that it sends since a
/// receiver behind it quits or asks for less asks for a confirmation, which is on its way after H passes.
pub fn a_mark_waits()
    ensures { AMarkWaits }
{}

/// And it needs that the receiver that asks for less asks for no confirmation.
pub fn a_confirmation_comes_back()
    ensures { AConfirmationComesBack }
{}
