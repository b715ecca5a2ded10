//! The laws.
ghost use Rattle.script_theorem.specs.AdvertReports.{ASettledAdvertsLineIsDemanded};
ghost use Rattle.script_theorem.specs.Demands.{ASettledReportIsTheDemand};
ghost use Rattle.script_theorem.specs.Example.{TheAdvertsBecomeWhatIsDemanded, TheReportBecomesTheDemand};
ghost use Rattle.script_theorem.specs.FlagReports.{SettledFlagsAreAFunction, ASettledFlagsLineIsDemanded};
ghost use Rattle.script_theorem.specs.RoundsAmong.{RoundsAmongWritingCount};
ghost use Rattle.script_theorem.specs.Purged.{APurgedReportIsAtMostTheDemand};
ghost use Rattle.script_theorem.specs.Sessions.{ASettledReportShowsEachSession};
ghost use Rattle.script_theorem.specs.Writing.{AMomentStaysCalm, ANetworkStaysSettled};

/// A moment behind calm rounds, as a settled one, stays one while only trace switches and reports follow, of books, of flags or of what
/// paths offer: they take no time, send nothing and change no node, so that they count as the end of the last round.
pub fn a_moment_stays_calm()
    ensures { AMomentStaysCalm }
{}

/// Rounds among lines that only write count together: they are as many calm rounds as if they stood in one line, but for what is
/// written at the end.
pub fn rounds_among_writing_count()
    ensures { RoundsAmongWritingCount }
{}

/// And a settled network stays settled, whatever led to it.
pub fn a_network_stays_settled()
    ensures { ANetworkStaysSettled }
{}

/// A settled report is the demand: in the run of a fit script that lets few senders send and is not crowded, at each report that
/// stands at a settled moment, where the demands of that moment fit, what the report appends to the text is the text of the
/// demand, whole, with senders and flows.
pub fn a_settled_report_is_the_demand()
    ensures { ASettledReportIsTheDemand }
{}

/// A report shows nothing stale: in the run of a fit script that is not crowded, at each report behind 10 H + 9 calm rounds, H the
/// longest chain of hops, each book that the report writes is at most the demand of its end, whether or not the demands fit: it lists
/// no session, style or sender that nobody below wants, no larger flow, and its sum is at most that of the demand.
pub fn a_purged_report_is_at_most_the_demand()
    ensures { APurgedReportIsAtMostTheDemand }
{}

/// A settled report shows each session by itself: in the run of a fit script that lets few senders send and is not crowded, at each
/// report behind 13 H + 13 calm rounds, the books that the report writes have of each session that fits at every end that carries it
/// exactly the entries of the demand, whatever other sessions ask for or are refused.
pub fn a_settled_report_shows_each_session()
    ensures { ASettledReportShowsEachSession }
{}

/// The run of a small script, computed: a report before the rounds tells of a left-over reservation, and one behind 32 rounds is
/// the demand.
pub fn the_report_becomes_the_demand()
    ensures { TheReportBecomesTheDemand }
{}

/// What a `flags` line writes is settled too: in the run of a fit script that lets few senders send and is not crowded, at each settled
/// moment, where the demands of that moment fit, it appends the flags that are demanded.
pub fn a_settled_flags_line_is_demanded()
    ensures { ASettledFlagsLineIsDemanded }
{}

/// So at two settled moments at which the demands fit and the same is asked of the same network, it writes the same.
pub fn settled_flags_are_a_function()
    ensures { SettledFlagsAreAFunction }
{}

/// What an `adverts` line writes is settled sooner, and whether or not the demands fit: in the run of a fit script that lets few senders
/// send and is not crowded, at each moment behind 7 H + 4 calm rounds, it appends by end, session and sender the advertisement of each
/// advertised live sender whose tree comes into the node by that end (RFC 2210, 3.3), and nothing else.
pub fn a_settled_adverts_line_is_demanded()
    ensures { ASettledAdvertsLineIsDemanded }
{}

/// The run of a small script, computed: an `adverts` line before the rounds writes nothing, since no Path has come yet, and one behind 11
/// rounds what is demanded.
pub fn the_adverts_become_what_is_demanded()
    ensures { TheAdvertsBecomeWhatIsDemanded }
{}
