//! Laws of the command line.
ghost use Rattle.command_run.specs.Laws.{EachVerbIsAnOrder, OtherWordsAreNone};

/// Each verb by itself is its order; a seed may stand with `grow`, before it or behind.
pub fn each_verb_is_an_order()
    ensures { EachVerbIsAnOrder }
{}

/// No words, words for help or version, unknown words, a second word, and faulty or misplaced seeds are no order.
pub fn other_words_are_none()
    ensures { OtherWordsAreNone }
{}
