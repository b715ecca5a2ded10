//! What policing means for whole lists of packets (RFC 2211, 6).
ghost use Rattle.load_policer.specs.Policing.{OneVerdict, TheLevelTells, WhatKeepsTheBoundPasses, WhatPassesKeepsTheBound};

/// A packet is told one thing.
pub fn one_verdict()
    ensures { OneVerdict }
{}

/// A packet is over if and only if the level with it passes the bucket.
pub fn the_level_tells()
    ensures { TheLevelTells }
{}

/// In each stretch of the packets that passed there are at most r times its time and b bytes.
pub fn what_passes_keeps_the_bound()
    ensures { WhatPassesKeepsTheBound }
{}

/// Packets that are not too large, and in each stretch of which there are no more than that, all pass.
pub fn what_keeps_the_bound_passes()
    ensures { WhatKeepsTheBoundPasses }
{}
