//! Rates at the ends of what is one, flows with a zero, and lists of senders at the ends of their room.
use rsvp_base::{Addr, Flow, Full, Part, Peak, Rate, Sender, Senders};
use std::test::Fail;

fn sender(addr: u32, port: u16) -> Sender {
    Sender {
        addr: Addr(addr),
        port,
    }
}

#[test]
fn a_rate_has_24_places_below_2_to_the_46(rt: HostRuntime) {
    for (n, is_rate) in [
        (0, true),
        (1, true),
        (16_777_215, true),
        (16_777_216, true),
        (16_777_217, false),
        (16_777_218, true),
        (70_368_739_983_360, true),
        (70_368_744_177_664, false),
    ] {
        assert!(rt; Rate::of(n).is_some() == is_rate, "at {n}");
    }
}

fn flow_of(r: u64, b: u64, low: u32, most: u32) -> Option<Flow> {
    Flow::new(Rate::of(r)?, Rate::of(b)?, Peak::Infinite, low, most)
}

#[test]
fn a_flow_has_no_zero_but_its_peak(rt: HostRuntime) {
    for (r, b, low, most, is_flow) in [
        (1, 1, 1, 1, true),
        (1, 1, 2, 1, true),
        (0, 1, 1, 1, false),
        (1, 0, 1, 1, false),
        (1, 1, 0, 1, false),
        (1, 1, 1, 0, false),
    ] {
        assert!(rt;
            flow_of(r, b, low, most).is_some() == is_flow,
            "at {r}/{b}/{low}/{most}"
        );
    }
}

// The list of these, put in one after the other.
fn listed(senders: &[Sender]) -> Option<Senders> {
    let mut list = Senders::new();
    for name in senders {
        list.insert(*name).ok()?;
    }
    Some(list)
}

// The first four places of a list of 4, and a fifth.
#[test]
fn senders_stand_in_order_and_once(rt: HostRuntime) -> Result<(), Fail> {
    let some = listed(&[
        sender(1, 9),
        sender(1, 3),
        sender(1, 7),
        sender(1, 3),
        sender(0, 65535),
    ])
    .ok_or("senders")?;
    for (place, name) in [
        (0, Some(sender(0, 65535))),
        (1, Some(sender(1, 3))),
        (2, Some(sender(1, 7))),
        (3, Some(sender(1, 9))),
        (4, None),
    ] {
        assert!(rt; some.at(place) == name && some.as_slice().len() == 4);
    }
    let two = Senders::of(&[sender(2, 2), sender(1, 1), sender(2, 2)]).or(Err("two"))?;
    assert!(rt; two.len() == 2);
    Ok(())
}

// The ports 0 to 15 of an address.
fn sixteen() -> Option<Senders> {
    let mut list = Senders::default();
    for port in 0u16..16 {
        list.insert(sender(1, port)).ok()?;
    }
    Some(list)
}

#[test]
fn there_are_at_most_16_senders(rt: HostRuntime) -> Result<(), Fail> {
    let mut others = sixteen().ok_or("senders")?;
    assert!(rt; others.insert(sender(1, 16)) == Err(Full));
    assert!(rt; others.insert(sender(1, 15)) == Ok(()));
    assert!(rt; others.len() == 16);
    Ok(())
}

#[test]
fn lists_of_senders_are_cut_and_joined(rt: HostRuntime) -> Result<(), Fail> {
    let others = sixteen().ok_or("senders")?;
    let mut some = listed(&[sender(1, 9), sender(1, 3), sender(1, 7), sender(0, 65535)]).ok_or(
        "four",
    )?;
    assert!(rt; some.union(&others).is_err() && !some.is_within(&others));
    let both = some.cut(&others);
    assert!(rt;
        both.len() == 3 && both.is_within(&some) && both.has(sender(1, 7)) && !both.is_empty()
    );
    assert!(rt; some.remove(sender(0, 65535)));
    assert!(rt; !some.remove(sender(0, 65535)));
    assert!(rt; some.union(&both).is_ok());
    Ok(())
}

#[test]
fn a_copy_is_equal(rt: HostRuntime) -> Result<(), Fail> {
    let flow = flow_of(1000, 2000, 64, 1500).ok_or("flow")?;
    let senders = listed(&[sender(1, 0)]).ok_or("senders")?;
    let copied = Part { senders, flow }.copy();
    assert!(rt; copied.flow == flow && copied.senders.at(0) == Some(sender(1, 0)));
    assert!(rt; copied.senders.len() == 1);
    Ok(())
}
