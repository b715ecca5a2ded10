//! A table of two facts.
use rsvp_base::{Addr, Full, Session};
use soft_table::{Fact, Finger, SoftTable};
use std::alloc::Global;
use std::cmp::Ordering;
use std::test::Fail;

// A number under a letter.
#[derive(Clone, Copy, PartialEq, Eq)]
struct Note {
    session: Session,
    letter: u8,
    number: u8,
}

impl Fact for Note {
    ghost use Rattle.rsvp_base.specs.Keys.{numbers};

    type Rest = u8;

    ghost rests = { numbers };

    ghost key_of = { λ m. (m.session, m.letter) };

    fn key(&self) -> (Session, u8) {
        (self.session, self.letter)
    }

    fn order(a: &u8, b: &u8) -> Ordering {
        a.cmp(b)
    }
}

fn session(group: u32) -> Session {
    Session {
        group: Addr(group),
        proto: 17,
        port: 5004,
    }
}

fn make_note(group: u32, letter: u8, number: u8) -> Note {
    Note {
        session: session(group),
        letter,
        number,
    }
}

// What the table answers to a fact with 10 ms left, where no dead one waits.
fn put(table: &mut SoftTable<Note>, fact: Note) -> Option<Result<(), Full>> {
    let None = table.pull_dead() else {
        return None;
    };
    Some(table.put(fact, 10))
}

// How many facts there are, where no dead one waits.
fn count(table: &mut SoftTable<Note>) -> Option<usize> {
    let None = table.pull_dead() else {
        return None;
    };
    Some(table.len())
}

// The number of a fact.
fn number(fact: Option<&Note>) -> Option<u8> {
    match fact {
        Some(note) => Some(note.number),
        None => None,
    }
}

// A table of two facts, which has 9 in the session 2 and 8 in the session 1.
fn filled(alloc: Global) -> Option<SoftTable<Note>> {
    let mut table = SoftTable::<Note>::open(alloc, 2).ok()?;
    for fact in [make_note(2, 1, 7), make_note(1, 1, 8), make_note(2, 1, 9)] {
        put(&mut table, fact)?.ok()?;
    }
    Some(table)
}

#[test]
fn a_full_table_has_each_fact_once_and_takes_no_other(rt: HostRuntime) -> Result<(), Fail> {
    let mut table = filled(rt.alloc()).ok_or("a table")?;
    assert!(rt; put(&mut table, make_note(3, 1, 1)) == Some(Err(Full)));
    assert!(rt; number(table.find(session(2), 1)) == Some(9));
    assert!(rt; table.sessions() == 2);
    assert!(rt; count(&mut table) == Some(2));
    Ok(())
}

#[test]
fn the_facts_of_a_session_are_gone_through(rt: HostRuntime) -> Result<(), Fail> {
    let table = filled(rt.alloc()).ok_or("a table")?;
    assert!(rt; number(table.at(session(2), 0)) == Some(9));
    assert!(rt; table.at(session(2), 1).is_none());
    let mut finger = Finger::default();
    assert!(rt; number(table.after(session(2), 0, &mut finger)) == Some(9));
    assert!(rt; table.after(session(2), 1, &mut finger).is_none());
    Ok(())
}

#[test]
fn a_fact_is_replaced_and_removed(rt: HostRuntime) -> Result<(), Fail> {
    let mut table = filled(rt.alloc()).ok_or("a table")?;
    assert!(rt; table.replace(make_note(1, 1, 6)));
    assert!(rt; !table.replace(make_note(1, 2, 6)));
    assert!(rt; table.replace(make_note(1, 1, 8)));
    assert!(rt; table.remove(session(1), 1) == Some(make_note(1, 1, 8)));
    assert!(rt; count(&mut table) == Some(1));
    Ok(())
}

// Whether the fact of a letter is renewed for 20 ms, where it has this number and no dead one waits.
fn renew(table: &mut SoftTable<Note>, letter: u8, number: u8) -> Option<bool> {
    let None = table.pull_dead() else {
        return None;
    };
    Some(table.renew_if(session(2), letter, 20, |note| note.number == number))
}

#[test]
fn a_fact_that_passes_is_renewed(rt: HostRuntime) -> Result<(), Fail> {
    let mut table = filled(rt.alloc()).ok_or("a table")?;
    assert!(rt; renew(&mut table, 1, 8) == Some(false));
    assert!(rt; renew(&mut table, 2, 9) == Some(false));
    assert!(rt; renew(&mut table, 1, 9) == Some(true));
    let None = table.pull_dead() else {
        return Err(Fail::from("a dead fact waits"));
    };
    table.advance(10);
    assert!(rt; table.pull_dead() == Some(make_note(1, 1, 8)));
    assert!(rt; number(table.find(session(2), 1)) == Some(9));
    Ok(())
}

#[test]
fn facts_die_with_their_time_or_are_cleared(rt: HostRuntime) -> Result<(), Fail> {
    let mut table = filled(rt.alloc()).ok_or("a table")?;
    assert!(rt; table.remove(session(1), 1).is_some());
    let None = table.pull_dead() else {
        return Err(Fail::from("a dead fact waits"));
    };
    table.advance(10);
    assert!(rt; table.find(session(2), 1).is_none());
    assert!(rt; table.pull_dead() == Some(make_note(2, 1, 9)));
    let None = table.pull_dead() else {
        return Err(Fail::from("a dead fact waits"));
    };
    assert!(rt; table.put(make_note(1, 2, 3), 4_294_967_295).is_ok());
    table.clear();
    assert!(rt; table.find(session(1), 2).is_none());
    assert!(rt; table.sessions() == 0);
    Ok(())
}
