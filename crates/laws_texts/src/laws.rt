//! The laws.
ghost use Rattle.laws_texts.specs.Reading.{EachScriptTellsWithinCapacity, HeadsAreRead};

/// The head of a report, as it is written, is one line, which reads as what it says: no sum and no capacity below 2^64 is misread.
pub fn heads_are_read()
    ensures { HeadsAreRead }
{}

/// In the text of the run of a valid script each whole line that reads as the head of a report, `end NAME held SUM of CAPACITY`, has
/// a sum of at most the capacity.
pub fn each_script_tells_within_capacity()
    ensures { EachScriptTellsWithinCapacity }
{}
