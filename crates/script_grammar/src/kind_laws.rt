//! Laws of the kinds of lines.
ghost use Rattle.script_grammar.specs.KindLaws.{FormedWordsSayALine};

/// Words say a line exactly where they are of a kind of line, as many as it may have, and each has the form of its field.
pub fn formed_words_say_a_line()
    ensures { FormedWordsSayALine }
{}
