//! The laws of composing ADSPECs.
ghost use Rattle.adspec_path.specs.Advertisement.{AnAdvertisementIsComposed};
ghost use Rattle.adspec_path.specs.Composing.{WhatIsComposedCanBeWritten};
ghost use Rattle.adspec_path.specs.RateBelow.{RateBelowIsTheLargest};
ghost use Rattle.adspec_path.specs.Same.{SameIsEqual};

/// The rate below a number, as a function of its bits, is the largest rate that is at most that number, and no other is.
pub fn rate_below_is_the_largest()
    ensures { RateBelowIsTheLargest }
{}

/// What is composed can be written, whatever the interface: its numbers fit their fields, and its other fragments are such.
pub fn what_is_composed_can_be_written()
    ensures { WhatIsComposedCanBeWritten }
{}

/// What is composed hop by hop, from the sender's own node on, is what is told of all hops at once: how many they are, the least
/// bandwidth, the sum of latencies, which stays at 2^32 - 1, the least MTU.
pub fn an_advertisement_is_composed()
    ensures { AnAdvertisementIsComposed }
{}

/// ADSPECs are the same exactly where they are equal.
pub fn same_is_equal()
    ensures { SameIsEqual }
{}
