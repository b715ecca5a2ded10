//! Time passes over the tables.
ghost use Rattle.std.specs.Prelude.{◌≡◌, ◌≤◌, ◌*◌, true, false};
ghost use Rattle.std.specs.List.{list_any};
ghost use Rattle.std.specs.Ordering.{eq_by_cmp};
ghost use Rattle.rsvp_base.specs.Orders.{sessions};
ghost use Rattle.rsvp_base.specs.Table.{changed, has};
ghost use Rattle.rsvp_base.specs.declared.session.Session.{Session};
ghost use Rattle.local_state.specs.Counting.{is_fired};
ghost use Rattle.blockade_state.specs.Touched.{touched_by};
ghost use Rattle.router_state.specs.State.{Said};
ghost use Rattle.router_state.specs.Waited.{aged};
ghost use Rattle.router_state.specs.Whole.{state_of};
ghost use Rattle.router_aging.specs.AfterWait.{after_wait};
ghost use Rattle.router_aging.specs.Lost.{lost_hops};
ghost use Rattle.router_aging.specs.Passing.{counts, dying_paths, sessions_at};
ghost use Rattle.router_aging.specs.Steps.{AreSound, all_dying};

use crate::aging::age_resvs;
use crate::counting::stop_uncounted;
use crate::dead::{DeadPaths, age_paths};
use crate::forgetting::forget_dead;
use crate::lost::LostHops;
use blockade_state::Touched;
use local_state::Fired;
use router_state::Tables;

/// Lets time pass over all tables, in milliseconds, at most half a period. What is not refreshed is gone then, and countdowns
/// have run: those that came due are answered, and begin again as the word says. The paths that died are told in `dead`, and
/// where they came from in `lost`; the sessions of which something died are touched. Names are not forgotten yet.
pub fn age_all(
    tables: &mut Tables,
    ms: u32,
    word: u32,
    dead: &mut DeadPaths,
    lost: &mut LostHops,
    touched: &mut Touched,
) -> Fired
    requires sound { AreSound tables.old }
    requires short { ms ≤ 2 * tables.old.config.quarter }
    ensures state { (said : Said) → state_of tables.new said ≡ aged ms word (state_of tables.old said) }
    ensures sound { AreSound tables.new }
    ensures ifaces { tables.new.book.ifaces ≡ tables.old.book.ifaces }
    ensures dead { dead.new ≡ dying_paths ms tables.old.paths.facts }
    ensures lost { lost.new ≡ lost_hops ms tables.old.paths.facts }
    ensures touched { touched.new ≡ touched_by (all_dying ms tables.old) touched.old }
    ensures fired { result ≡ changed (is_fired ms) tables.old.due }
{
    let quarter = tables.config.quarter();
    let fired = tables.due.tick(quarter, ms, word);
    tables.walls.age(ms, touched);
    age_resvs(&mut tables.wild, &mut tables.book, ms, touched);
    age_resvs(&mut tables.fixed, &mut tables.book, ms, touched);
    age_resvs(&mut tables.shared, &mut tables.book, ms, touched);
    age_paths(&mut tables.paths, ms, dead, lost, touched);
    fired
}

/// The names of the senders whose paths died leave the reservations, where no known sender has them any more, and the
/// countdowns of sessions stop that have neither a local sender nor a path. Nothing is looked up of a session of which no path
/// died.
pub fn forget_all(tables: &mut Tables, dead: &DeadPaths)
    requires sound { AreSound tables.old }
    requires counted { (s : Session) → has tables.old.due s ≡ true → list_any (eq_by_cmp sessions.cmp s) (sessions_at dead.now) ≡ false
        → counts tables.old.senders.tspecs tables.old.paths.facts s ≡ true }
    ensures state { (said : Said) → state_of tables.new said ≡ after_wait dead.now (state_of tables.old said) }
    ensures sound { AreSound tables.new }
    ensures ifaces { tables.new.book.ifaces ≡ tables.old.book.ifaces }
{
    forget_dead(
        &mut tables.wild,
        &mut tables.book,
        &tables.senders,
        &tables.paths,
        dead,
    );
    forget_dead(
        &mut tables.fixed,
        &mut tables.book,
        &tables.senders,
        &tables.paths,
        dead,
    );
    forget_dead(
        &mut tables.shared,
        &mut tables.book,
        &tables.senders,
        &tables.paths,
        dead,
    );
    stop_uncounted(&mut tables.due, &tables.senders, &tables.paths, dead);
}
