//! The laws.
ghost use Rattle.script_theorem.specs.Fronts.{FrontsHaveHealedReports};
ghost use Rattle.script_theorem.specs.Theorem.{FirstLinesAreSafe, FirstLinesHealThemselves, FitRunsAreSafe};

/// At each step of a fit run, however it ends: no book passes the capacity of its interface, nor any part of it the MTU (RFC 2205,
/// 1: admission control), and the world in which the run ends is one of those. A refused local call changes nothing of the network; a
/// Resv that is refused as a whole changes no reservation of its node; a unit that is refused, left out or matches nobody changes
/// nothing of its reservation, and no lifetime begins anew. While a blockade lives (RFC 2205, 3.5) each Resv that is sent asks for what
/// goes toward its hop, and what is not blockaded goes on below the blockade; an admission error sets its blockade, which stays until
/// it dies, is replaced or its node is cleared; a unit that passes the tests is booked; a blockade drops no unit, and a ResvErr tears
/// nothing down.
pub fn fit_runs_are_safe()
    ensures { FitRunsAreSafe }
{}

/// So is each step of the run of any first lines that may begin a script, whatever stands behind them in their file: a script is all
/// of its lines, and a file with a bad line has those before.
pub fn first_lines_are_safe()
    ensures { FirstLinesAreSafe }
{}

/// The run of any first lines that may begin a script, if it is not crowded, heals itself: at each report that stands at a settled
/// moment (13 H + 13 calm rounds lie behind it, H the longest chain of hops), where the demands of the senders and wants of that moment
/// fit, what the report appends to the text is the text of the demand, whole, with senders and flows. Whatever was left over, lost,
/// injected or asked for before makes no difference. And behind 10 H + 9 calm rounds a report lists nothing that nobody below wants,
/// whether or not the demands fit. And at a settled moment it lists of each session that fits exactly what is demanded of it, whatever
/// the others ask for. A `flags` line at a settled moment, where the demands fit, appends the flags that are demanded; and an `adverts`
/// line behind 7 H + 4 calm rounds the advertisements that are demanded, whether or not the demands fit.
pub fn first_lines_heal_themselves()
    ensures { FirstLinesHealThemselves }
{}

/// Where a front of the text of such a run was written, since the run or its sink ended early, each report that stands in it whole is
/// the same: at a settled moment the demand, or that of each session that fits, and at a purged one it lists nothing stale. So is what each
/// `flags` line wrote that stands in it whole: at a settled moment the flags that are demanded; and what each `adverts` line wrote, behind
/// 7 H + 4 calm rounds the advertisements that are demanded.
pub fn fronts_have_healed_reports()
    ensures { FrontsHaveHealedReports }
{}
