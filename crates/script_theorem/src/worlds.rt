//! The laws.
ghost use Rattle.script_theorem.specs.Standing.{RoundsBringTheAdverts, RoundsBringTheDemand, ScriptsStand, TheLastAdvertsAreDemanded, TheLastReportIsTheDemand, TheSameIsDemanded};

/// Demands depend on who sends and what is wanted, and not on the order in which that is listed.
pub fn the_same_is_demanded()
    ensures { TheSameIsDemanded }
{}

/// In the world behind the lines of a valid script the routing in force is what the lines say, and its nodes have exactly the
/// senders and wants that the lines ask for. Exactly those live senders are advertised (RFC 2210, 3.3) of which an `advert` line says so
/// and no later line drops them.
pub fn scripts_stand()
    ensures { ScriptsStand }
{}

/// So where the run of a valid script is not crowded and comes to a report at a settled moment, and from there on only writes, if
/// anything follows, and what its lines ask fits, that report is the demand of the script: what `demand` writes of it, but for the last
/// line.
pub fn the_last_report_is_the_demand()
    ensures { TheLastReportIsTheDemand }
{}

/// So it is in a script whose last lines are at least 13 H + 13 rounds, H the longest chain of hops, in one line or in several, among
/// lines that only write, the report, and lines that only write: the text of the run is that of the lines before the report, then what `demand`
/// writes, but for the last line, and then that of the lines behind it.
pub fn rounds_bring_the_demand()
    ensures { RoundsBringTheDemand }
{}

/// And where the run of a valid script is not crowded and comes to an `adverts` line behind 7 H + 4 calm rounds, H the longest chain of
/// hops, and from there on only writes, if anything follows, that line writes the advertisements (RFC 2210, 3.3) of the routing in force,
/// of the senders that the lines advertise, whether or not what they ask fits: a function of the lines alone, in which no state of a
/// router occurs.
pub fn the_last_adverts_are_demanded()
    ensures { TheLastAdvertsAreDemanded }
{}

/// So it does in a script whose last lines are so many rounds, in one line or in several, among lines that only write, the `adverts`
/// line, and lines that only write: the text of the run is that of the lines before the `adverts` line, then those advertisements, and
/// then that of the lines behind it.
pub fn rounds_bring_the_adverts()
    ensures { RoundsBringTheAdverts }
{}
