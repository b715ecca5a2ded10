//! The laws of what is written.
ghost use Rattle.message_codec.specs.WritingLaws.{WhatIsSpeltIsWritable, WhatIsInPlaceStands};
ghost use Rattle.message_codec.specs.Written.{InRangeIsWhatTypesKnow, WhatIsInRangeIsSpelt};

/// What bytes spell is writable: whatever was read can be written, and read again.
pub fn what_is_spelt_is_writable()
    ensures { WhatIsSpeltIsWritable }
{}

/// Objects that are each in their place behind those before them are read one after the other, as they are spelt.
pub fn what_is_in_place_stands()
    ensures { WhatIsInPlaceStands }
{}

/// The test of what the types of code know says what they know.
pub fn in_range_is_what_types_know()
    ensures { InRangeIsWhatTypesKnow }
{}

/// What is written for a proper message in range spells it.
pub fn what_is_in_range_is_spelt()
    ensures { WhatIsInRangeIsSpelt }
{}
