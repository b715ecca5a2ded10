//! The laws of objects and their spellings.
ghost use Rattle.rsvp_objects.specs.Proper.{WhatWasPutIsReadAgain, WhatIsReadIsProper, SpellingsAreWholeWords, ObjectsHaveTheirClass};

/// What was put is read again, at its place and whatever stands before and behind: each object whose numbers fit their
/// fields, whose flow is sound and whose scope has no ports.
#[tactic(auto, using(crate::proofs::Again::read_again))]
pub fn what_was_put_is_read_again()
    ensures { WhatWasPutIsReadAgain }
{}

/// What is read can be put and read again: its numbers fit their fields, its flow is sound, and its scope has no ports.
#[tactic(auto, using(crate::proofs::ReadProper::what_is_read_is_proper))]
pub fn what_is_read_is_proper()
    ensures { WhatIsReadIsProper }
{}

/// A spelling is whole words of four bytes, from 4 to 68 bytes, of an ADSPEC to 144.
#[tactic(auto, using(crate::proofs::Again::whole_words))]
pub fn spellings_are_whole_words()
    ensures { SpellingsAreWholeWords }
{}

/// An object has the Class-Num under which it was read.
#[tactic(auto, using(crate::proofs::Classes::objects_have_their_class))]
pub fn objects_have_their_class()
    ensures { ObjectsHaveTheirClass }
{}
