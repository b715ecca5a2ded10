//! Laws of what is to blame for a bad line.
ghost use Rattle.script_grammar.specs.BlameLaws.{MisreadLinesSayNothing};

/// A line that has words and is no comment says nothing exactly where it is misread: its first word is unknown, or it has another
/// number of words than a line of its kind, or one of them has not the form of its field.
pub fn misread_lines_say_nothing()
    ensures { MisreadLinesSayNothing }
{}
