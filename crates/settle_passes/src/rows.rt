//! Worked rows: small networks, by computing.
ghost use Rattle.settle_passes.specs.Worked.{AConfirmationIsLate, AMovedTreeLeavesAReservation, APairForgets, APairIsSetUp, AReceiverAsks, AReceiverIsServed, AStrayTearIsTaken, ATradeIsRefused};

/// A host of a pair of nodes begins to send: that meets the premises of `a_new_sender_is_set_up`, and of the laws on paths that spread,
/// and its paths are not complete when it begins.
pub fn a_pair_is_set_up()
    ensures { APairIsSetUp }
{}

/// And once its path is there, it ends: that meets the premises of `an_ended_sender_is_forgotten`, and paths are not sound when it ends.
pub fn a_pair_forgets()
    ensures { APairForgets }
{}

/// Not without the premise that no PathTear is in flight: where one is injected of a sender that goes on to send, in a network of one hop,
/// a pass after another sender begins the node behind the hop has the path of that one, and none of the first.
pub fn a_stray_tear_is_taken()
    ensures { AStrayTearIsTaken }
{}

/// And once its path is there, the node behind the hop asks: that meets the premises of the laws on what a receiver takes, and when it asks
/// its reservation is not there.
pub fn a_receiver_asks()
    ensures { AReceiverAsks }
{}

/// In a line of two hops what a receiver asks for stands at the sender's end four passes after the host begins to send, in which two
/// Paths and two Resvs are taken; and two passes after it quits the end holds nothing.
pub fn a_receiver_is_served()
    ensures { AReceiverIsServed }
{}

/// Reservations are not always set up like this. One call raises one fixed filter and lowers another: over one hop, at full capacity,
/// the raise is refused, though the end held what it can before and is to hold as much after. Nothing is in flight any more, and the end
/// holds less.
pub fn a_trade_is_refused()
    ensures { ATradeIsRefused }
{}

/// Nor is all done in time where a confirmation is asked for: over three hops one comes to the receiver in the pass after 2 H + 2 passes.
pub fn a_confirmation_is_late()
    ensures { AConfirmationIsLate }
{}

/// Nor are reservations set up where a tree moves from one link to another: four passes later the end that it left holds as much as the
/// end that it goes out of now.
pub fn a_moved_tree_leaves_a_reservation()
    ensures { AMovedTreeLeavesAReservation }
{}
