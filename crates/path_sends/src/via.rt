//! The names via a previous hop.
ghost use Rattle.std.specs.Prelude.{◌≡◌, ℕ};
ghost use Rattle.rsvp_base.specs.Styles.{name_of};
ghost use Rattle.style_rules.specs.Ways.{way_of};
ghost use Rattle.laws_sends.specs.State.{State};
ghost use Rattle.laws_sends.specs.Seen.{up_at, wall_seen, way_seen};

use blockade_state::Blockades;
use path_state::PathTable;
use router_state::Config;
use rsvp_base::{Addr, Sender, Session, StyleKind};
use style_rules::{Target, UpLine, Upstream, Wall};

/// The names via a previous hop in a style, each with the interfaces by which its tree goes on and with its blockade (RFC
/// 2205, 3.5): what a table of reservations wants to know of the hop.
pub fn upstream(
    config: &Config,
    paths: &PathTable,
    walls: &Blockades,
    session: Session,
    style: StyleKind,
    hop: (u8, Addr),
) -> Upstream
    ensures { (c : ℕ) (n : State) → n.place ≡ config.now → n.paths ≡ paths.now.facts → n.walls ≡ walls.now → result ≡ up_at c n session style hop }
{
    // The proof sees here that each path stands under its own sender.
    paths.limits();
    let names = paths.senders_via(session, hop.0, hop.1);
    let mut up = Upstream::new();
    for sender in names.as_slice() {
        let line = line_for(config, walls, session, style, hop, *sender);
        let Ok(()) = up.add(line) else {
            unreachable!();
        };
    }
    up
}

// The line of a sender via a hop.
fn line_for(
    config: &Config,
    walls: &Blockades,
    session: Session,
    style: StyleKind,
    hop: (u8, Addr),
    sender: Sender,
) -> UpLine
    ensures { (c : ℕ) (n : State) → n.place ≡ config.now → n.walls ≡ walls.now → way_of result ≡ (name_of style sender, way_seen c n session style hop (name_of style sender)) }
{
    let name = name_of(style, sender);
    let outward = config.ways_of(session, name);
    let wall = wall_for(walls, session, style, hop, name);
    UpLine {
        name,
        outward,
        wall,
    }
}

// The blockade that counts for a name toward a previous hop: for the wildcard style that of the hop.
fn wall_for(
    walls: &Blockades,
    session: Session,
    style: StyleKind,
    hop: (u8, Addr),
    name: Sender,
) -> Option<Wall>
    ensures { (c : ℕ) (n : State) → n.walls ≡ walls.now → result ≡ wall_seen c n session style hop name }
{
    match style {
        StyleKind::Wild => walls.of(session, Target::Hop(hop.0, hop.1)),
        StyleKind::Fixed => walls.of(session, Target::Sender(name)),
        StyleKind::Shared => walls.of(session, Target::Sender(name)),
    }
}

/// The name under which a style lists a sender: of a wildcard filter the address alone.
pub fn name_of(style: StyleKind, sender: Sender) -> Sender
    ensures { result ≡ name_of style sender }
{
    match style {
        StyleKind::Wild => Sender {
            addr: sender.addr,
            port: 0,
        },
        StyleKind::Fixed => sender,
        StyleKind::Shared => sender,
    }
}
