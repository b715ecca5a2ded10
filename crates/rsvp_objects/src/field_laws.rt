//! The laws of rates and words, and of ADSPECs and their spellings.
ghost use Rattle.rsvp_objects.specs.RateLaws.{EachRateHasOneWord, RatesAreTheNumbersWithAWord, AWordStandsForOneRate};
ghost use Rattle.rsvp_objects.specs.AdspecLaws.{WhatWasWrittenIsReadAgain, WhatIsReadCanBeWritten};

/// Each rate, and infinity, has exactly one word.
#[tactic(auto, using(crate::proofs::WordLaws::each_rate_has_one_word))]
pub fn each_rate_has_one_word()
    ensures { EachRateHasOneWord }
{}

/// A number is a rate exactly where some word stands for it.
pub fn rates_are_the_numbers_with_a_word()
    ensures { RatesAreTheNumbersWithAWord }
{}

/// A word stands for one rate at most.
#[tactic(auto, using(crate::proofs::WordLaws::a_word_stands_for_one_rate))]
pub fn a_word_stands_for_one_rate()
    ensures { AWordStandsForOneRate }
{}

/// What was written is read again: each ADSPEC whose numbers fit their fields and whose other fragments are such.
#[tactic(auto, using(crate::proofs::AdspecAgain::read_again))]
pub fn what_was_written_is_read_again()
    ensures { WhatWasWrittenIsReadAgain }
{}

/// What is read can be written and read again: its numbers fit their fields, and its other fragments are such.
pub fn what_is_read_can_be_written()
    ensures { WhatIsReadCanBeWritten }
{}
