//! The senders that an entry names.
ghost use Rattle.std.specs.Prelude.{◌≡◌, ◌≤◌};
ghost use Rattle.rsvp_base.specs.Orders.{senders, sessions};
ghost use Rattle.rsvp_base.specs.Under.{under};
ghost use Rattle.traffic_control.specs.Policing.{count_of, is_counted};

use path_sends::name_of;
use path_state::{PathFact, PathTable};
use router_state::Config;
use rsvp_base::{Part, Session, StyleKind};

// At most so many senders of a session.
const SENDERS: usize = 16;

/// How many paths of a session have a sender that an entry names and whose tree goes out of its interface; or, of these, how
/// many are marked for policing.
pub(crate) fn count(
    config: &Config,
    paths: &PathTable,
    session: Session,
    style: StyleKind,
    iface: u8,
    part: &Part,
    marked: bool,
) -> usize
    ensures { result ≡ count_of config.now session style iface part.now marked (under sessions senders paths.now.facts session).rows }
{
    // The proof sees here what holds of every table.
    paths.limits();
    let mut count = 0;
    for k in 0..SENDERS {
        let Some(path) = paths.at(session, k) else {
            return count;
        };
        if is_counted(config, session, style, iface, part, marked, path) {
            count += 1;
        }
    }
    count
}

// Whether a path is counted.
fn is_counted(
    config: &Config,
    session: Session,
    style: StyleKind,
    iface: u8,
    part: &Part,
    marked: bool,
    path: &PathFact,
) -> bool
    ensures { result ≡ is_counted config.now session style iface part.now marked path.now.sender path.now.police }
{
    part.senders.has(name_of(style, path.sender))
        && config.goes_out(session, iface, path.sender)
        && (!marked || path.police)
}
