//! 512 blockades and a 513th; a wall that is replaced, and walls that die.
use blockade_state::{Blockades, Target};
use rsvp_base::{Addr, Flow, Full, Peak, Rate, Sender, Session};
use std::test::Fail;
use style_rules::Wall;

fn session(group: u32) -> Session {
    Session {
        group: Addr(group),
        proto: 17,
        port: 5004,
    }
}

fn hop(addr: u32) -> Target {
    Target::Hop(1, Addr(addr))
}

fn wall(r: u64, sub: u16) -> Option<Wall> {
    let flow = Flow::new(Rate::of(r)?, Rate::of(8)?, Peak::Infinite, 1, 1500)?;
    Some(Wall { flow, sub })
}

// Whether 512 walls are set, and a 513th is not.
fn is_filled(walls: &mut Blockades, low: &Wall) -> bool {
    for addr in 0u32..513 {
        let answer = if addr < 512 { Ok(()) } else { Err(Full) };
        if walls.set(session(1), hop(addr), *low, 100) != answer {
            return false;
        }
    }
    walls.free() == 0
}

// Whether one of them is replaced by another, which lives 100 ms longer than the rest.
fn is_replaced(walls: &mut Blockades, low: &Wall, high: &Wall) -> bool {
    walls.set(session(1), hop(7), *high, 200) == Ok(())
        && walls.of(session(1), hop(7)) == Some(*high)
        && walls.of(session(1), hop(8)) == Some(*low)
        && walls.of(session(1), hop(512)).is_none()
}

// Whether there is room when their time is over, and that of the one that was set again.
fn is_dead(walls: &mut Blockades) -> bool {
    for (ms, free) in [(99u32, 0usize), (1, 511), (99, 511), (1, 512)] {
        walls.advance(ms);
        if walls.free() != free {
            return false;
        }
    }
    true
}

// Whether a sender is blockaded in a session, and it alone.
fn is_kept(walls: &mut Blockades, low: &Wall) -> bool {
    let sender = Target::Sender(Sender {
        addr: Addr(7),
        port: 5004,
    });
    walls.set(session(2), sender, *low, 4_294_967_295) == Ok(())
        && walls.of(session(1), sender).is_none()
        && walls.of(session(2), Target::Hop(0, Addr(0))).is_none()
        && walls.of(session(2), sender) == Some(*low)
}

#[test]
fn there_is_room_for_512_and_no_513th(rt: HostRuntime) -> Result<(), Fail> {
    let mut walls = Blockades::open(rt.alloc()).or(Err("memory"))?;
    let low = wall(4, 2).ok_or("wall")?;
    let high = wall(10, 3).ok_or("wall")?;
    assert!(rt; is_filled(&mut walls, &low) && is_replaced(&mut walls, &low, &high));
    assert!(rt; is_dead(&mut walls) && is_kept(&mut walls, &low));
    walls.clear();
    assert!(rt; walls.free() == 512);
    Ok(())
}
