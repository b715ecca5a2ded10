//! Worked rows: small networks, by computing.
ghost use Rattle.settle_confirmations.specs.Worked.{AFixedFilterHears, AReceiverHasItAlready, AReceiverHears, AReceiverTurnsAway, ARequestIsRefused, AnAnswerIsEarly, AnAnswerIsForMore};
ghost use Rattle.settle_confirmations.specs.Worked.{AnAnswerLeavesOut, AnAnswerSpeaksOfAnother, LessIsConfirmed, TwoEndsHearNothing, TwoReceiversAskAtOnce};

/// A receiver in a pair of nodes meets the premises of `a_receiver_is_answered` and of `what_is_confirmed_is_held`; and in a line of two hops
/// the answer comes in the fourth pass, the last of the 2 H, and confirms what was asked for.
pub fn a_receiver_hears()
    ensures { AReceiverHears }
{}

/// Not without the premise that the session has one sender: with a shared filter what two receivers want of two senders is one reservation,
/// so that a request goes on for the sake of the other sender alone, and the answer, which speaks of that one, is dropped.
pub fn an_answer_speaks_of_another()
    ensures { AnAnswerSpeaksOfAnother }
{}

/// With a fixed filter, where a receiver asks for two senders at once, the answer need not speak of each: where for one of them nothing goes
/// on from a router, and for the other something does, it speaks of the other alone.
pub fn an_answer_leaves_out()
    ensures { AnAnswerLeavesOut }
{}

/// A receiver in a pair of nodes meets the premises of `a_fixed_filter_is_answered`: it asks for two senders, one of which sends.
pub fn a_fixed_filter_hears()
    ensures { AFixedFilterHears }
{}

/// Nor with a wildcard filter, where one host sends by two addresses: by two ends of a receiver come the paths of two senders, and it asks by
/// both; where their ways part and meet again, a router forgets the one address to confirm for the other, on one link this one and on
/// another one that, and both answers are dropped. So it is with a fixed filter for both, whose paths do not come by one end.
pub fn two_ends_hear_nothing()
    ensures { TwoEndsHearNothing }
{}

/// With one sender, not without the premise that all in flight are requests of one end: where two receivers behind one router ask at once, a
/// router keeps the address of the last one, and drops the answer to the first.
pub fn two_receivers_ask_at_once()
    ensures { TwoReceiversAskAtOnce }
{}

/// Nor without the premise that no less is asked for: a receiver that has what it wants, and asks for a sender that does not send in its
/// place, gets no answer, though its node sends a ResvTear for the call.
pub fn a_receiver_turns_away()
    ensures { AReceiverTurnsAway }
{}

/// Nor without the premise that its node sends something for the call: a receiver that asks to be confirmed for what it has gets no answer.
pub fn a_receiver_has_it_already()
    ensures { AReceiverHasItAlready }
{}

/// Nor without the premise that the demands fit: what is asked for is refused, and what comes back is a ResvErr.
pub fn a_request_is_refused()
    ensures { ARequestIsRefused }
{}

/// What is confirmed can be more than was asked for: where a router has a receiver of its own that asks for a smaller rate and a larger
/// bucket, the Resv that goes on, and so the ResvConf, has the merge of both.
pub fn an_answer_is_for_more()
    ensures { AnAnswerIsForMore }
{}

/// Not without the premise that the network has settled is at least as much confirmed as was asked for, or held at each end: where a blockade
/// is left of a refusal, a receiver asks for 1,200 bytes per second, which fit, and the router before it keeps them back, which has 400 for a
/// receiver of its own; all that is confirmed, and held by the end before that router, are these 400.
pub fn less_is_confirmed()
    ensures { LessIsConfirmed }
{}

/// Nor is what is confirmed held all along while another request is on its way, when the network has not settled and something is in flight:
/// where another receiver has just asked for more, the router in which the two meet answers at once, before the first end of the way holds
/// anything, and no other answer comes within 2 H passes.
pub fn an_answer_is_early()
    ensures { AnAnswerIsEarly }
{}
