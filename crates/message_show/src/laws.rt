//! Laws of what is shown.
ghost use Rattle.message_show.specs.Laws.{BadIsNotRight, OneBadLine, OneTextIsShown, ShownIsRight};

use message_codec::laws::{a_message_is_one, no_fault_where_spelt, the_first_fault_is_one};

/// Of an input one text is shown.
pub fn one_text_is_shown()
    ensures { OneTextIsShown }
{
    a_message_is_one();
    no_fault_where_spelt();
    the_first_fault_is_one();
}

/// What is shown has right lines alone.
pub fn shown_is_right()
    ensures { ShownIsRight }
{}

/// An input with a bad line has not right lines alone.
pub fn bad_is_not_right()
    ensures { BadIsNotRight }
{}

/// An input has one first bad line, and it has one fault.
pub fn one_bad_line()
    ensures { OneBadLine }
{}
