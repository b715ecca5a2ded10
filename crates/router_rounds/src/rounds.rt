//! The lanes of sessions, one session after another.
ghost use Rattle.std.specs.Prelude.{◌≡◌, ℕ, ◌&&◌, not, fold, true, nat_lt, Some, map};
ghost use Rattle.std.specs.List.{flat_map};
ghost use Rattle.path_state.specs.Paths.{hops_by};
ghost use Rattle.rsvp_base.specs.Orders.{senders, sessions};
ghost use Rattle.rsvp_base.specs.Table.{empty, get, keys, size};
ghost use Rattle.rsvp_base.specs.Under.{under};
ghost use Rattle.blockade_state.specs.Touched.{is_touched};
ghost use Rattle.router_rules.specs.Known.{Lane};
ghost use Rattle.style_rules.specs.Merge.{PartTable};
ghost use Rattle.router_state.specs.State.{facts_of};
ghost use Rattle.laws_sends.specs.Before.{lanes_by};
ghost use Rattle.laws_sends.specs.Saying.{IsCleared, IsRoomy, IsTold};
ghost use Rattle.laws_sends.specs.SendsHere.{hops_in};
ghost use Rattle.laws_sends.specs.Several.{is_among};
ghost use Rattle.router_state.specs.Whole.{state_of};
ghost use Rattle.router_rounds.specs.Rounds.{AreCleared, AreTold, told_round, torn_near, wants_once, wants_told};
ghost use Rattle.resv_sends.specs.Rounds.{IsStill};
ghost use Rattle.router_rounds.specs.Nears.{AreNear, AreStill, near_row};

use crate::nears::{Near, Nears};
use blockade_state::Touched;
use resv_sends::{clear_lanes, refresh_lanes, tear_lanes, tell_lanes, unmark, used_marks};
use router_rules::Outbox;
use router_state::Tables;
use rsvp_base::{Sender, Session};
use sent_state::LaneTable;

// Whether a session is one of these.
fn is_one_of(sessions: &[Session], session: Session) -> bool
    ensures { result ≡ is_among sessions.now session }
{
    sessions.iter().any(|one| *one == session)
}

// Whether a session is only due: nothing of it changed.
fn is_still(due: bool, touched: &Touched, session: Session) -> bool
    ensures { result ≡ (due && not (is_touched touched.now session)) }
{
    due && !touched.has(session)
}

// The ResvTears of a session's lanes toward the hops that it had, of what was said there; none where that is what goes there.
fn tear_session<O: Outbox>(tables: &Tables, said: &LaneTable, near: &Near, still: bool, out: &mut O)
    requires { still ≡ true → IsStill (state_of tables.now said.now) near.now.session said.now }
    ensures { (c : ℕ) → out.new ≡ fold O.posted out.old (torn_near c (state_of tables.now said.now) said.now (near_row near.now)) }
{
    if still {
        return;
    }
    tear_lanes(tables, said, near.session, &near.hops, out);
}

// The ResvTears of the sessions' lanes toward the hops that they had, of what was said there: by session, style and hop. Where
// a session is only due, what was said to its lanes is what goes there.
pub(crate) fn tear_all<O: Outbox>(
    tables: &Tables,
    said: &LaneTable,
    nears: &Nears,
    due: &[Session],
    touched: &Touched,
    out: &mut O,
)
    requires { AreStill (state_of tables.now said.now) said.now due.now touched.now }
    ensures { (c : ℕ) → out.new ≡ fold O.posted out.old (flat_map (torn_near c (state_of tables.now said.now) said.now) nears.now.rows) }
{
    let list = nears.as_slice();
    for i in 0..list.len() {
        let near = &list[i];
        let is_due = is_one_of(due, near.session);
        let still = is_still(is_due, touched, near.session);
        tear_session(tables, said, near, still, out);
    }
}

// Forgets what was said to a session's lanes toward the hops that it had, where no path comes from the hop any more; there is
// nothing to forget where that is what goes there.
fn clear_session(tables: &Tables, said: &mut LaneTable, near: &Near, still: bool)
    requires full { (l : Lane) (t : PartTable) → get said.old l ≡ Some t → nat_lt 0 (size t) ≡ true }
    requires still { still ≡ true → IsStill (state_of tables.now said.old) near.now.session said.old }
    ensures { IsCleared (state_of tables.now said.old) near.now.session (lanes_by (keys near.now.hops)) said.new }
{
    if still {
        return;
    }
    clear_lanes(tables, said, near.session, &near.hops);
}

// Forgets what was said to the sessions' lanes toward the hops that they had, where no path comes from the hop any more. Where
// a session is only due, what was said to its lanes is what goes there, and no hop is looked up.
pub(crate) fn clear_all(
    tables: &Tables,
    said: &mut LaneTable,
    nears: &Nears,
    due: &[Session],
    touched: &Touched,
)
    requires full { (l : Lane) (t : PartTable) → get said.old l ≡ Some t → nat_lt 0 (size t) ≡ true }
    requires still { AreStill (state_of tables.now said.old) said.old due.now touched.now }
    ensures { AreCleared (state_of tables.now said.old) nears.now.rows said.new }
{
    let list = nears.as_slice();
    for i in 0..list.len() {
        let near = &list[i];
        let is_due = is_one_of(due, near.session);
        let still = is_still(is_due, touched, near.session);
        clear_session(tables, said, near, still);
    }
}

// The Resvs of a session's lanes, where they changed or are due; the marks that they use are taken away. What was said before
// is of lanes from which a path comes.
fn tell_wishes<O: Outbox>(
    tables: &mut Tables,
    said: &mut LaneTable,
    session: Session,
    due: bool,
    out: &mut O,
)
    requires { IsRoomy (state_of tables.old said.old) said.old }
    ensures sent { (c : ℕ) → out.new ≡ fold O.posted out.old (told_round c (state_of tables.old said.old) due said.old session) }
    ensures told { (c : ℕ) → IsTold (state_of tables.old said.old) session (lanes_by (keys (hops_in (facts_of c (state_of tables.old said.old)) session))) said.new }
    ensures roomy { IsRoomy (state_of tables.old said.old) said.new }
    ensures marks { (c : ℕ) → tables.new ≡ record tables.old { wants = wants_once c (state_of tables.old said.old) said.old session } }
{
    let hops = tables.paths.hops(session);
    let used = used_marks(tables, said, session, &hops);
    tell_lanes(tables, said, session, &hops, None, due, out);
    unmark(tables, session, &used);
}

// The Resvs of the lanes of a session that is due, where what was said there is what goes there, and the hops are those from
// which its paths come.
fn refresh_session<O: Outbox>(tables: &Tables, said: &LaneTable, near: &Near, out: &mut O)
    requires still { IsStill (state_of tables.now said.now) near.now.session said.now }
    requires near { near.now.hops ≡ hops_by (under sessions senders tables.now.paths.facts near.now.session).rows }
    ensures { (c : ℕ) → out.new ≡ fold O.posted out.old (told_round c (state_of tables.now said.now) true said.now near.now.session) }
{
    refresh_lanes(tables, said, near.session, &near.hops, out);
}

// The Resvs of a session's lanes, where they changed or are due; the marks that they use are taken away. What was said before
// is of lanes from which a path comes, and, where the session is `still`, it is due and that is what goes there, and its hops
// are those that it had.
fn tell_session<O: Outbox>(
    tables: &mut Tables,
    said: &mut LaneTable,
    near: &Near,
    due: bool,
    still: bool,
    out: &mut O,
)
    requires roomy { IsRoomy (state_of tables.old said.old) said.old }
    requires due { still ≡ true → due ≡ true }
    requires still { still ≡ true → IsStill (state_of tables.old said.old) near.now.session said.old }
    requires near { still ≡ true → near.now.hops ≡ hops_by (under sessions senders tables.old.paths.facts near.now.session).rows }
    ensures sent { (c : ℕ) → out.new ≡ fold O.posted out.old (told_round c (state_of tables.old said.old) due said.old near.now.session) }
    ensures told { (c : ℕ) → IsTold (state_of tables.old said.old) near.now.session (lanes_by (keys (hops_in (facts_of c (state_of tables.old said.old)) near.now.session))) said.new }
    ensures roomy { IsRoomy (state_of tables.old said.old) said.new }
    ensures marks { (c : ℕ) → tables.new ≡ record tables.old { wants = wants_once c (state_of tables.old said.old) said.old near.now.session } }
{
    if still {
        refresh_session(tables, said, near, out);
        return;
    }
    tell_wishes(tables, said, near.session, due, out);
}

// The Resvs of the sessions' lanes, where they changed or their session is one of `due`: by session, style and hop. The marks
// that they use are taken away. What was said before is of lanes from which a path comes, and, where a session is only due, it
// is what goes there, and the hops are those that it had: they are not looked up again.
pub(crate) fn tell_all<O: Outbox>(
    tables: &mut Tables,
    said: &mut LaneTable,
    nears: &Nears,
    due: &[Session],
    touched: &Touched,
    out: &mut O,
)
    requires roomy { IsRoomy (state_of tables.old said.old) said.old }
    requires still { AreStill (state_of tables.old said.old) said.old due.now touched.now }
    requires near { AreNear tables.old.paths.facts nears.now due.now touched.now }
    ensures sent { (c : ℕ) → out.new ≡ fold O.posted out.old (flat_map (λ s. told_round c (state_of tables.old said.old) (is_among due.now s) said.old s) (keys nears.now)) }
    ensures told { AreTold (state_of tables.old said.old) (keys nears.now) said.new }
    ensures roomy { IsRoomy (state_of tables.old said.old) said.new }
    ensures marks { (c : ℕ) → tables.new ≡ record tables.old { wants = wants_told c (state_of tables.old said.old) said.old (keys nears.now) } }
{
    let list = nears.as_slice();
    for i in 0..list.len() {
        let near = &list[i];
        let is_due = is_one_of(due, near.session);
        let still = is_still(is_due, touched, near.session);
        tell_session(tables, said, near, is_due, still, out);
    }
}
