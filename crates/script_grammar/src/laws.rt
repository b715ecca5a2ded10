//! Laws of the script grammar.
ghost use Rattle.script_grammar.specs.Laws.{BadIsNoScript, BadLineIsOne, EventsAreAdded, LifetimeIsRoundedUp, OneScript, OnlyEventsFollowEvents};

/// Bytes are one script at most.
pub fn one_script()
    ensures { OneScript }
{}

/// Bytes with a bad line are no script.
pub fn bad_is_no_script()
    ensures { BadIsNoScript }
{}

/// Bytes have one first bad line at most, and that line has one fault.
pub fn bad_line_is_one()
    ensures { BadLineIsOne }
{}

/// A lifetime is (K + 0.5) * 1.5 * R with K = 3, for the refresh period R of any script: rounding it up to whole
/// milliseconds changes nothing (RFC 2205, 3.7).
pub fn lifetime_is_rounded_up()
    ensures { LifetimeIsRoundedUp }
{}

/// A line of part 3 adds one event to the plan, and changes nothing else of it.
pub fn events_are_added()
    ensures { EventsAreAdded }
{}

/// Behind an event nothing follows but events, and lines that are skipped.
pub fn only_events_follow_events()
    ensures { OnlyEventsFollowEvents }
{}
