//! The texts of values at the ends of their ranges.
use rsvp_base::{Addr, Flow, NoMemory, Peak, Rate, Sender, Session, StyleKind};
use std::test::Fail;
use value_texts::{put_flow, put_name, put_names, put_session, put_style};

const SESSION: Session = Session {
    group: Addr(0xef01_0101),
    proto: 17,
    port: 5004,
};

const LAST: Sender = Sender {
    addr: Addr(0xffff_ffff),
    port: 65535,
};

const NAMES: &[Sender] = &[
    Sender {
        addr: Addr(0),
        port: 0,
    },
    LAST,
];

const TEXT: &[u8] = b"239.1.1.1/17/5004WF0.0.0.0,255.255.255.255255.255.255.255\
FF0.0.0.0:0,255.255.255.255:65535255.255.255.255:65535\
SE0.0.0.0:0,255.255.255.255:65535255.255.255.255:65535\
70368739983360/1/70368739983360/1/42949672951/70368739983360/inf/64/1500";

// A session, two names in each style, and two flows.
fn put_all(out: &mut Vec<u8>, full: Flow, open: Flow) -> Result<(), NoMemory> {
    put_session(out, SESSION)?;
    for style in [StyleKind::Wild, StyleKind::Fixed, StyleKind::Shared] {
        put_style(out, style)?;
        put_names(out, style, NAMES)?;
        put_name(out, style, LAST)?;
    }
    put_flow(out, full)?;
    put_flow(out, open)
}

#[test]
fn values_are_written_as_scripts_write_them(rt: HostRuntime) -> Result<(), Fail> {
    let most = Rate::of(70_368_739_983_360).ok_or("the largest rate")?;
    let one = Rate::of(1).ok_or("one")?;
    let full = Flow::new(most, one, Peak::Finite(most), 1, 4_294_967_295).ok_or("a flow")?;
    let open = Flow::new(one, most, Peak::Infinite, 64, 1500).ok_or("an open flow")?;
    let mut out = Vec::new(rt.alloc());
    put_all(&mut out, full, open)?;
    assert!(rt; out.as_slice() == TEXT);
    Ok(())
}
