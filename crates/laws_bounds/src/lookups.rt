//! Laws of the rules of a router: what the tests tell, what is found where, and what is sent.
ghost use Rattle.laws_bounds.specs.FactLaws.{TestsTell, KnownAndVia, OffersByWay, RequestsAndToward, BooksAndLines, RoomTells};
ghost use Rattle.laws_bounds.specs.RuleLaws.{TablesByStyle, WaitingLeavesTheLiving, LeftByNames, ForgettingByNames, CountdownsSettle, RuleInParts};
ghost use Rattle.laws_bounds.specs.SendLaws.{AsksOfParts, GoneByUnits, SendsAreOfSixKinds};
ghost use Rattle.laws_bounds.specs.WishLaws.{WishesAreGranted, MarksAreUsed};
ghost use Rattle.laws_bounds.specs.FlagLaws.{FlagsByPathsAndResvs};
ghost use Rattle.laws_bounds.specs.OrderLaws.{SendsInOrder};

/// Each test tells what it is the test of.
#[tactic(auto, using(crate::proofs::Tests::tests_tell))]
pub fn tests_tell()
    ensures { TestsTell }
{}

/// A table of senders, paths or wants that changed at one session is within its limits exactly where the test there passes.
#[tactic(auto, using(crate::proofs::Rooms::room_tells))]
pub fn room_tells()
    ensures { RoomTells }
{}

/// A sender is known where it is a local one or has a path; a name is via a hop where a path of it comes from there; a
/// session counts where a sender of it is known.
#[tactic(auto, using(crate::proofs::Knowing::known_and_via))]
pub fn known_and_via()
    ensures { KnownAndVia }
{}

/// A sender is offered by each interface by which its tree goes out, and by no other.
#[tactic(auto, using(crate::proofs::Offering::offers_by_way))]
pub fn offers_by_way()
    ensures { OffersByWay }
{}

/// The requests toward a hop are what is left of reservations and of wants; nothing goes where no path comes from.
#[tactic(auto, using(crate::proofs::Requesting::requests_and_toward))]
pub fn requests_and_toward()
    ensures { RequestsAndToward }
{}

/// The lines of a node are its reservations, and an entry of a book is the merge of those on its interface.
#[tactic(auto, using(crate::proofs::Requesting::books_and_lines))]
pub fn books_and_lines()
    ensures { BooksAndLines }
{}

/// There is one table of reservations for each style, and a change of one leaves the others.
#[tactic(auto, using(crate::proofs::Leaving::tables_by_style))]
pub fn tables_by_style()
    ensures { TablesByStyle }
{}

/// A wait leaves each fact that dies later than the clock as it is, and no other; sessions whose moment came are due.
#[tactic(auto, using(crate::proofs::Leaving::waiting_leaves_the_living))]
pub fn waiting_leaves_the_living()
    ensures { WaitingLeavesTheLiving }
{}

/// What is left of a reservation has the names that stay, and all else as it was; without a name nothing is left.
#[tactic(auto, using(crate::proofs::Leaving::left_by_names))]
pub fn left_by_names()
    ensures { LeftByNames }
{}

/// A name is lost where a sender of it was known before and none is after; reservations lose these names alone.
#[tactic(auto, using(crate::proofs::Leaving::forgetting_by_names))]
pub fn forgetting_by_names()
    ensures { ForgettingByNames }
{}

/// A countdown stands exactly where its session has a known sender; a new one begins at a period.
#[tactic(auto, using(crate::proofs::Leaving::countdowns_settle))]
pub fn countdowns_settle()
    ensures { CountdownsSettle }
{}

/// What a rule leaves is what the input does, with names forgotten, countdowns settled and marks used.
#[tactic(auto, using(crate::proofs::Ruling::rule_in_parts))]
pub fn rule_in_parts()
    ensures { RuleInParts }
{}

/// Each send is a tear of what is gone, an error, a confirmation, or an offer or request that is new or due; and each of
/// these is sent.
#[tactic(auto, using(crate::proofs::Sending::sends_are_of_six_kinds))]
pub fn sends_are_of_six_kinds()
    ensures { SendsAreOfSixKinds }
{}

/// What is sent for a table of parts asks for exactly its parts, unit by unit; nothing is sent for none.
#[tactic(auto, using(crate::proofs::Asks::asks_of_parts))]
pub fn asks_of_parts()
    ensures { AsksOfParts }
{}

/// The names that are torn down are those of parts whose units are gone.
#[tactic(auto, using(crate::proofs::Asks::gone_by_units))]
pub fn gone_by_units()
    ensures { GoneByUnits }
{}

/// Sends go in six lists one after another, each in the order of its keys, and once for each key.
#[tactic(auto, using(crate::proofs::Ordering::sends_in_order))]
pub fn sends_in_order()
    ensures { SendsInOrder }
{}

/// A wish to be confirmed is granted here where something was taken and nothing new goes on for its session.
#[tactic(auto, using(crate::proofs::Wishing::wishes_are_granted))]
pub fn wishes_are_granted()
    ensures { WishesAreGranted }
{}

/// A mark is used where its want takes part in a Resv that goes for a change; where a message has a wish of its own it waits.
#[tactic(auto, using(crate::proofs::Wishing::marks_are_used))]
pub fn marks_are_used()
    ensures { MarksAreUsed }
{}

/// Policing flags tell of the paths that match an entry, and of reservations beside it.
#[tactic(auto, using(crate::proofs::Flagging::flags_by_paths_and_resvs))]
pub fn flags_by_paths_and_resvs()
    ensures { FlagsByPathsAndResvs }
{}
