//! Worked rows: small networks, by computing.
ghost use Rattle.settle_refreshes.specs.WorkedRoom.{APairIsRoomy, ARefusalComesBack, ConfirmationsMultiply, OverheadsAreSo, WhatIsLeftOverIsRefreshed};

/// On a link of four ends, with a sender at one and a receiver at each of two others, the refresh overhead is five datagrams: three
/// copies of the Path and two Resvs. Without the receivers it is three.
pub fn overheads_are_so()
    ensures { OverheadsAreSo }
{}

/// The run of a small script, with a left-over reservation, a host that sends, and 28 rounds, meets the premises of
/// `a_settled_run_never_crowds`; its overhead is one datagram, and one is in flight in the half period that follows.
pub fn a_pair_is_roomy()
    ensures { APairIsRoomy }
{}

/// Not without the premise that the demands fit is nothing in flight behind a round: where a receiver asks for more than the link has, nothing
/// is after 27 rounds, and a ResvErr is after one more.
pub fn a_refusal_comes_back()
    ensures { ARefusalComesBack }
{}

/// Nor without the 13 H + 13 calm rounds is there no more in flight than the overhead: where a path is left over of a sender that nobody is, its
/// node sends Resvs for a receiver, though the overhead is nothing.
pub fn what_is_left_over_is_refreshed()
    ensures { WhatIsLeftOverIsRefreshed }
{}

/// Nor without the premise that nothing is in flight but Paths and Resvs that ask for no confirmation: where two trees cross routers in opposite
/// directions, ResvConfs multiply. Two are in flight where the overhead is 15, and five passes later there are 24.
pub fn confirmations_multiply()
    ensures { ConfirmationsMultiply }
{}
