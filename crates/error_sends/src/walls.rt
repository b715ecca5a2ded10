//! Blockades are set.
ghost use Rattle.std.specs.Prelude.{◌≡◌, ◌≤◌, ◌&&◌, ◌||◌, ◌==◌, not, cond, nat_le, length, map};
ghost use Rattle.std.specs.List.{filter};
ghost use Rattle.rsvp_base.specs.Table.{has, keys, put_in, size};
ghost use Rattle.router_rules.specs.Errors.{blamed_senders, is_admission};
ghost use Rattle.error_sends.specs.ResvErrs.{have_room, sender_wall, walls_put, walls_set};

use blockade_state::Blockades;
use router_state::Config;
use rsvp_base::{Addr, ErrSpec, Sender, Senders, Session, StyleKind};
use rsvp_messages::{Blame, ResvErrMsg};
use style_rules::{Target, Wall};

/// Sets the blockades that a ResvErr asks for, which came by an interface. False exactly where they have not all room;
/// nothing changes then.
pub(crate) fn set_walls(
    config: &Config,
    walls: &mut Blockades,
    iface: u8,
    message: &ResvErrMsg,
) -> bool
    ensures room { result ≡ have_room config.now iface message.now walls.old }
    ensures walls { walls.new ≡ cond result (walls_set config.now iface message.now message.now.blame.flow walls.old) walls.old }
{
    if !is_admission(&message.err) {
        return true;
    }
    let Some(flow) = message.blame.flow else {
        return true;
    };
    let wall = Wall {
        flow,
        sub: message.err.value,
    };
    let session = message.session;
    let left = config.wall_lifetime();
    match message.blame.style {
        StyleKind::Wild => {
            let target = Target::Hop(iface, message.hop.addr);
            set_one(walls, session, target, &wall, left)
        }
        StyleKind::Fixed => set_blamed(walls, session, &message.blame, &wall, left),
        StyleKind::Shared => set_blamed(walls, session, &message.blame, &wall, left),
    }
}

// Whether it is an admission control failure for the rate or the packet size.
fn is_admission(err: &ErrSpec) -> bool
    ensures { result ≡ is_admission err.now }
{
    err.code == 1 && (err.value == 2 || err.value == 3)
}

// Sets a wall toward a target. False exactly where it has no room; nothing changes then.
fn set_one(walls: &mut Blockades, session: Session, target: Target, wall: &Wall, left: u32) -> bool
    requires { 1 ≤ left }
    ensures room { result ≡ nat_le (size (put_in walls.old (session, target) (wall.now, left))) 512 }
    ensures walls { walls.new ≡ cond result (put_in walls.old (session, target) (wall.now, left)) walls.old }
{
    walls.set(session, target, *wall, left).is_ok()
}

// Sets a wall toward each sender that is blamed. False exactly where they have not all room; nothing changes then.
fn set_blamed(
    walls: &mut Blockades,
    session: Session,
    blame: &Blame,
    wall: &Wall,
    left: u32,
) -> bool
    requires { 1 ≤ left }
    ensures room { result ≡ nat_le (size (walls_put walls.old wall.now left (map (sender_wall session) (blamed_senders blame.now.senders)))) 512 }
    ensures walls { walls.new ≡ cond result (walls_put walls.old wall.now left (map (sender_wall session) (blamed_senders blame.now.senders))) walls.old }
{
    match &blame.senders {
        Some(names) => set_all(walls, session, names, wall, left),
        None => set_all(walls, session, &Senders::new(), wall, left),
    }
}

// Sets a wall toward each of some senders. False exactly where they have not all room; nothing changes then.
fn set_all(walls: &mut Blockades, session: Session, names: &Senders, wall: &Wall, left: u32) -> bool
    requires { 1 ≤ left }
    ensures room { result ≡ nat_le (size (walls_put walls.old wall.now left (map (sender_wall session) (keys names.now)))) 512 }
    ensures walls { walls.new ≡ cond result (walls_put walls.old wall.now left (map (sender_wall session) (keys names.now))) walls.old }
{
    // The proof sees here that the map has at most 512.
    let _known = walls.of(session, Target::Hop(0, Addr(0)));
    let list = names.as_slice();
    if walls.free() < count_new(walls, session, list) {
        return false;
    }
    for name in list {
        let Ok(()) = walls.set(session, Target::Sender(*name), *wall, left) else {
            unreachable!();
        };
    }
    true
}

// How many of the senders have no wall.
fn count_new(walls: &Blockades, session: Session, names: &[Sender]) -> usize
    ensures { result ≡ length (filter (λ x. not (has walls.now (sender_wall session x))) names.now) }
{
    names
        .iter()
        .filter(|name| !has_wall(walls, session, **name))
        .count()
}

// Whether a sender has a wall.
fn has_wall(walls: &Blockades, session: Session, name: Sender) -> bool
    ensures { result ≡ has walls.now (sender_wall session name) }
{
    walls.of(session, Target::Sender(name)).is_some()
}
