//! The laws of what bytes spell.
ghost use Rattle.message_codec.specs.Laws.{AMessageIsOne, NoFaultWhereSpelt, TheFirstFaultIsOne, WhatIsSpeltIsProper, EachObjectIsInPlace, WhatStandsOnceIsSaidOnce};
ghost use Rattle.message_codec.specs.Laws.{BehindStyleStandsTheList, WhatIsInGrammarIsInPlace, WhatStandsIsInGrammar};

/// Bytes spell at most one message.
pub fn a_message_is_one()
    ensures { AMessageIsOne }
{}

/// Bytes that spell a message have no fault.
pub fn no_fault_where_spelt()
    ensures { NoFaultWhereSpelt }
{}

/// Bytes have at most one first fault, with one kind and one hint.
pub fn the_first_fault_is_one()
    ensures { TheFirstFaultIsOne }
{}

/// A message that bytes spell is proper.
pub fn what_is_spelt_is_proper()
    ensures { WhatIsSpeltIsProper }
{}

/// Where objects stand one after the other, each is in its place behind those before it.
pub fn each_object_is_in_place()
    ensures { EachObjectIsInPlace }
{}

/// Where objects stand one after the other, a class that stands once by the table stands at most once.
pub fn what_stands_once_is_said_once()
    ensures { WhatStandsOnceIsSaidOnce }
{}

/// Behind a STYLE stand FLOWSPECs, FILTER_SPECs, and what may stand anywhere.
pub fn behind_style_stands_the_list()
    ensures { BehindStyleStandsTheList }
{}

/// What the grammar of a kind allows of the whole list (RFC 2205, 3.1.3 to 3.1.9) is in its place, object by object.
pub fn what_is_in_grammar_is_in_place()
    ensures { WhatIsInGrammarIsInPlace }
{}

/// Objects that stand one after the other are in the grammar of their kind.
pub fn what_stands_is_in_grammar()
    ensures { WhatStandsIsInGrammar }
{}
