//! Laws of messages that are sent: they are proper (RFC 2205, 3.1).
ghost use Rattle.laws_bounds.specs.ProperLaws.{WhatIsSentIsProper};

/// What a node within bounds sends is proper, where what came to it was fit.
pub fn what_is_sent_is_proper()
    ensures { WhatIsSentIsProper }
{}
