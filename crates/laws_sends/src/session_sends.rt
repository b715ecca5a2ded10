//! Laws of what a node sends.
ghost use Rattle.laws_sends.specs.SayingLaws.{AllIsSaid, LanesAreTold, MergedIsToward, NothingIsSent, RefreshIsQuiet};
ghost use Rattle.laws_sends.specs.Marks.{MarksDoNotMatter, MarksOfOneSession};
ghost use Rattle.laws_sends.specs.SendsHere.{OneSenderIsTold, OneSessionIsTold};

/// Where one sender changed, what is sent are its own tears and Paths, and the ResvTears and Resvs of its session's lanes.
pub fn one_sender_is_told()
    ensures { OneSenderIsTold }
{}

/// Where one sender changed, and with it its session alone, what is sent is of the sender and of its session's lanes, with the
/// errors and confirmations of the change between.
pub fn one_session_is_told()
    ensures { OneSessionIsTold }
{}

/// Whichever marks of local wants are taken away, the same goes toward each hop.
pub fn marks_do_not_matter()
    ensures { MarksDoNotMatter }
{}

/// Where one session changed, the marks that are used, and whether what was taken goes on, are those of the session's lanes.
pub fn marks_of_one_session()
    ensures { MarksOfOneSession }
{}

/// What the table of a style merges toward a hop is what the rule sends there.
pub fn merged_is_toward()
    ensures { MergedIsToward }
{}

/// Where nothing changed, nothing is sent.
pub fn nothing_is_sent()
    ensures { NothingIsSent }
{}

/// A path that is heard again by the same hop changes nothing of what goes toward any hop.
pub fn refresh_is_quiet()
    ensures { RefreshIsQuiet }
{}

/// Once the Resvs of a session that changed are sent, what its lanes keep as sent last is what goes toward each hop.
pub fn all_is_said()
    ensures { AllIsSaid }
{}

/// The Resvs of all lanes, each made from the last one that went there, are what the rule sends.
pub fn lanes_are_told()
    ensures { LanesAreTold }
{}
