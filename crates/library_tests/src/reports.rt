//! The line of an end, and an entry of each style, with and without what is said besides.
use rsvp_base::{
    Addr, EntryKey, Flow, NoMemory, Part, Peak, Rate, Sender, Senders, Session, StyleKind, Unit,
};
use std::test::Fail;
use value_texts::{put_entry, put_head, put_line};

const ONE: Sender = Sender {
    addr: Addr(0x0a00_0102),
    port: 5004,
};

const TEXT: &[u8] = b"end a1 held 3000 of 12500000\n\
239.1.1.1/17/5004 WF 10.0.1.2 1000/1000/inf/64/1500\n\
239.1.1.1/17/5004 WF 10.0.1.2 1000/1000/inf/64/1500 e--\n\
239.1.1.1/17/5004 FF 10.0.1.2:5004 1000/1000/inf/64/1500\n\
239.1.1.1/17/5004 FF 10.0.1.2:5004 1000/1000/inf/64/1500 e--\n\
239.1.1.1/17/5004 SE 10.0.1.2:5004 1000/1000/inf/64/1500\n\
239.1.1.1/17/5004 SE 10.0.1.2:5004 1000/1000/inf/64/1500 e--\n";

fn part() -> Option<Part> {
    let rate = Rate::of(1000)?;
    let senders = Senders::of(&[ONE]).ok()?;
    let flow = Flow::new(rate, rate, Peak::Infinite, 64, 1500)?;
    Some(Part { senders, flow })
}

// The entry of each style, as it is and with flags.
fn put_entries(out: &mut Vec<u8>, part: &Part) -> Result<(), NoMemory> {
    for (style, unit) in [
        (StyleKind::Wild, Unit::One),
        (StyleKind::Fixed, Unit::Of(ONE)),
        (StyleKind::Shared, Unit::One),
    ] {
        let key = EntryKey {
            session: Session {
                group: Addr(0xef01_0101),
                proto: 17,
                port: 5004,
            },
            style,
            unit,
        };
        put_entry(out, key, part)?;
        put_line(out, key, part, b" e--")?;
    }
    Ok(())
}

#[test]
fn lines_are_written_as_reports_show_them(rt: HostRuntime) -> Result<(), Fail> {
    let part = part().ok_or("a part")?;
    let mut out = Vec::new(rt.alloc());
    put_head(&mut out, b"a1", 3000, 12_500_000)?;
    put_entries(&mut out, &part)?;
    assert!(rt; out.as_slice() == TEXT);
    Ok(())
}
