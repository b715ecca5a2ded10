//! Worked rows: small networks, by computing.
ghost use Rattle.settle_senders.specs.AdvertsWorked.{AHostAdvertises, AStrayPathIsTaken, NoPassIsSparedAnAdvert};
ghost use Rattle.settle_senders.specs.FlowsWorked.{AHostSaysAnotherFlow, AStrayFlowIsTaken, NoPassIsSparedAFlow};
ghost use Rattle.settle_senders.specs.Worked.{AMarkIsAnswered, ANewDemandIsRefused, APathGoesToOneEnd, AReceiverWaits, ASenderEnds, ASharedFlowFallsLater, ATearIsInFlight};
ghost use Rattle.settle_senders.specs.Worked.{NoPassIsSpared, TwoSendersEnd, WhatIsLeftOverStays};

/// In a pair of nodes in which a receiver waits, a host begins to send: that meets the premises of the laws, and what they promise does not
/// hold yet when it begins.
pub fn a_receiver_waits()
    ensures { AReceiverWaits }
{}

/// None of the 2 H passes can be spared: in a line of two hops the sender's end holds nothing after three passes, and what the receiver asks
/// for after four.
pub fn no_pass_is_spared()
    ensures { NoPassIsSpared }
{}

/// Not without the premise that the demands fit after the call is the receiver served: where the sender's end has less than the receiver
/// waits for, it refuses that, and holds nothing after 2 H passes.
pub fn a_new_demand_is_refused()
    ensures { ANewDemandIsRefused }
{}

/// Nor without the premise that nothing is in flight when the host begins: where a receiver quit and asked again, and its Resv came first, the
/// ResvTear takes the reservation, and it is not there after 2 H passes.
pub fn a_tear_is_in_flight()
    ensures { ATearIsInFlight }
{}

/// Nor without the premise that the network has settled: the receiver is served, and a reservation that is left over of another session stands.
pub fn what_is_left_over_stays()
    ensures { WhatIsLeftOverStays }
{}

/// Nor where the host sends to an address that is no group: on a shared link its Path goes to the end that has this address, and the receiver
/// at another end of the tree is not served.
pub fn a_path_goes_to_one_end()
    ensures { APathGoesToOneEnd }
{}

/// That nothing is in flight in the end needs that no want has a mark: where the receiver waits to be confirmed, a ResvConf is on its way after
/// 2 H passes.
pub fn a_mark_is_answered()
    ensures { AMarkIsAnswered }
{}

/// A host of a pair of nodes begins to send and advertises, at once or when its path is there: that meets the premises of the laws on what
/// paths keep of adverts, and what they promise of the H passes does not hold yet when it does. Those of `an_advert_leaves_reservations` the same
/// world meets as `settle_passes::a_receiver_asks` has it.
pub fn a_host_advertises()
    ensures { AHostAdvertises }
{}

/// None of the H passes can be spared: in a line of two hops the last node keeps no advertisement one pass after the host advertises, and that
/// of its way after two.
pub fn no_pass_is_spared_an_advert()
    ensures { NoPassIsSparedAnAdvert }
{}

/// Not without what is asked of Paths in flight when a host advertises: where one without an ADSPEC is injected of a sender that is advertised,
/// in a network of one hop, and the host then begins to send as another one and advertises it, a pass later the path of the first keeps no
/// advertisement, and that of the other the one of its way.
pub fn a_stray_path_is_taken()
    ensures { AStrayPathIsTaken }
{}

/// In a pair of nodes whose receiver is served, the host ends: that meets the premises of the laws on a sender that ends; and when it does, paths
/// are not those of the others yet, the network has not settled, and something is in flight.
pub fn a_sender_ends()
    ensures { ASenderEnds }
{}

/// They do not promise that H passes after a sender ends each book is its demand: where H is 3, a flow that two senders shared stands at the
/// sender's end after three passes as large as before, and is what the other one needs after four.
pub fn a_shared_flow_falls_later()
    ensures { ASharedFlowFallsLater }
{}

/// Of two senders that end at once they say nothing: where H is 1, a ResvErr is in flight 2 H passes later, since a receiver that asks for each
/// by name asks once more for the second one when it hears that the first has ended. A pass later none is.
pub fn two_senders_end()
    ensures { TwoSendersEnd }
{}

/// In a pair of nodes whose path is there, the host says another flow: that meets the premises of the laws on flows, and what they promise does
/// not hold yet when it does. The path keeps the flow of before then, and the new one a pass later. And where the host sends as another sender
/// besides, whose path is there too, that one keeps the flow that it kept.
pub fn a_host_says_another_flow()
    ensures { AHostSaysAnotherFlow }
{}

/// None of the H passes can be spared: in a line of two hops the last node keeps the flow of before one pass after the host says another one, and
/// the new one after two.
pub fn no_pass_is_spared_a_flow()
    ensures { NoPassIsSparedAFlow }
{}

/// Not without what is asked of Paths in flight when a host says another flow: where one with a flow that its sender does not send is injected, in
/// a network of one hop, and the host then says another flow as another sender, a pass later the path of the first keeps the stray flow, and
/// that of the other the new one.
pub fn a_stray_flow_is_taken()
    ensures { AStrayFlowIsTaken }
{}
