//! The texts of values.
ghost use Rattle.std.specs.Prelude.{◌≡◌, ◌≤◌, ◌<◌, ◌+◌, ◌++◌, length, OnOk, OnErr, codes, vec_capacity};
ghost use Rattle.std.specs.Io.{StartsWith};
ghost use Rattle.std.specs.Fmt.{decimal};
ghost use Rattle.std.specs.List.{flat_map};
ghost use Rattle.value_texts.specs.Texts.{addr_text, session_text, style_text, sender_text, name_text, names_text, peak_text, flow_text};

use itoa::Buffer;
use rsvp_base::{Addr, Flow, NoMemory, Peak, Sender, Session, StyleKind};

/// Appends these bytes. `NoMemory`, here and in each call of this crate: the room that the text had did not suffice, and there
/// was no memory for more; what was there stands at the front of what is. Room never shrinks.
pub fn put(out: &mut Vec<u8>, bytes: &[u8]) -> Result<(), NoMemory>
    ensures text { OnOk result (out.new.items ≡ out.old.items ++ bytes.now) }
    ensures front { OnErr result (StartsWith out.new.items out.old.items) }
    ensures full { OnErr result (vec_capacity out.old < length (out.old.items ++ bytes.now)) }
    ensures kept { vec_capacity out.old ≤ vec_capacity out.new }
{
    Ok(out.extend_from_slice(bytes)?)
}

/// Appends a number in decimal digits, without leading zeros.
pub fn put_number(out: &mut Vec<u8>, n: u64) -> Result<(), NoMemory>
    ensures text { OnOk result (out.new.items ≡ out.old.items ++ decimal n) }
    ensures front { OnErr result (StartsWith out.new.items out.old.items) }
    ensures full { OnErr result (vec_capacity out.old < length (out.old.items ++ decimal n)) }
    ensures kept { vec_capacity out.old ≤ vec_capacity out.new }
{
    let mut buffer = Buffer::new();
    put(out, buffer.format(n).as_bytes())
}

/// Appends an address, as `10.0.1.2`.
#[tactic(auto, unfolding(crate::specs::Texts::addr_text))]
pub fn put_addr(out: &mut Vec<u8>, addr: Addr) -> Result<(), NoMemory>
    ensures text { OnOk result (out.new.items ≡ out.old.items ++ addr_text addr) }
    ensures front { OnErr result (StartsWith out.new.items out.old.items) }
    ensures full { OnErr result (vec_capacity out.old < length (out.old.items ++ addr_text addr)) }
    ensures kept { vec_capacity out.old ≤ vec_capacity out.new }
{
    let n = u64::from(addr.0);
    put_number(out, n / 16_777_216)?;
    put(out, b".")?;
    put_number(out, n / 65536 % 256)?;
    put(out, b".")?;
    put_number(out, n / 256 % 256)?;
    put(out, b".")?;
    put_number(out, n % 256)
}

/// Appends a session, as `239.1.1.1/17/5004`: group, protocol and port.
#[tactic(auto, unfolding(crate::specs::Texts::session_text))]
pub fn put_session(out: &mut Vec<u8>, s: Session) -> Result<(), NoMemory>
    ensures text { OnOk result (out.new.items ≡ out.old.items ++ session_text s) }
    ensures front { OnErr result (StartsWith out.new.items out.old.items) }
    ensures full { OnErr result (vec_capacity out.old < length (out.old.items ++ session_text s)) }
    ensures kept { vec_capacity out.old ≤ vec_capacity out.new }
{
    put_addr(out, s.group)?;
    put(out, b"/")?;
    put_number(out, u64::from(s.proto))?;
    put(out, b"/")?;
    put_number(out, u64::from(s.port))
}

/// Appends the letters of a style (RFC 2205, 1.3): `WF`, `FF` or `SE`.
pub fn put_style(out: &mut Vec<u8>, style: StyleKind) -> Result<(), NoMemory>
    ensures text { OnOk result (out.new.items ≡ out.old.items ++ style_text style) }
    ensures front { OnErr result (StartsWith out.new.items out.old.items) }
    ensures full { OnErr result (vec_capacity out.old < length (out.old.items ++ style_text style)) }
    ensures kept { vec_capacity out.old ≤ vec_capacity out.new }
{
    match style {
        StyleKind::Wild => put(out, b"WF"),
        StyleKind::Fixed => put(out, b"FF"),
        StyleKind::Shared => put(out, b"SE"),
    }
}

/// Appends a sender, as `10.0.1.2:5004`.
#[tactic(auto, unfolding(crate::specs::Texts::sender_text))]
pub fn put_sender(out: &mut Vec<u8>, s: Sender) -> Result<(), NoMemory>
    ensures text { OnOk result (out.new.items ≡ out.old.items ++ sender_text s) }
    ensures front { OnErr result (StartsWith out.new.items out.old.items) }
    ensures full { OnErr result (vec_capacity out.old < length (out.old.items ++ sender_text s)) }
    ensures kept { vec_capacity out.old ≤ vec_capacity out.new }
{
    put_addr(out, s.addr)?;
    put(out, b":")?;
    put_number(out, u64::from(s.port))
}

/// Appends a sender as a reservation of this style names it: a wildcard filter by its address alone.
pub fn put_name(out: &mut Vec<u8>, style: StyleKind, s: Sender) -> Result<(), NoMemory>
    ensures text { OnOk result (out.new.items ≡ out.old.items ++ name_text style s) }
    ensures front { OnErr result (StartsWith out.new.items out.old.items) }
    ensures full { OnErr result (vec_capacity out.old < length (out.old.items ++ name_text style s)) }
    ensures kept { vec_capacity out.old ≤ vec_capacity out.new }
{
    match style {
        StyleKind::Wild => put_addr(out, s.addr),
        StyleKind::Fixed => put_sender(out, s),
        StyleKind::Shared => put_sender(out, s),
    }
}

// A name behind others.
fn put_other(out: &mut Vec<u8>, style: StyleKind, s: Sender) -> Result<(), NoMemory>
    ensures text { OnOk result (out.new.items ≡ out.old.items ++ (codes "," ++ name_text style s)) }
    ensures front { OnErr result (StartsWith out.new.items out.old.items) }
    ensures full { OnErr result (vec_capacity out.old < length (out.old.items ++ (codes "," ++ name_text style s))) }
    ensures kept { vec_capacity out.old ≤ vec_capacity out.new }
{
    put(out, b",")?;
    put_name(out, style, s)
}

// The names after the first.
fn put_others(out: &mut Vec<u8>, style: StyleKind, others: &[Sender]) -> Result<(), NoMemory>
    ensures text { OnOk result (out.new.items ≡ out.old.items ++ flat_map (λ s. codes "," ++ name_text style s) others.now) }
    ensures front { OnErr result (StartsWith out.new.items out.old.items) }
    ensures full { OnErr result (vec_capacity out.old < length (out.old.items ++ flat_map (λ s. codes "," ++ name_text style s) others.now)) }
    ensures kept { vec_capacity out.old ≤ vec_capacity out.new }
{
    for s in others {
        put_other(out, style, *s)?;
    }
    Ok(())
}

/// Appends names, joined by commas.
pub fn put_names(out: &mut Vec<u8>, style: StyleKind, names: &[Sender]) -> Result<(), NoMemory>
    ensures text { OnOk result (out.new.items ≡ out.old.items ++ names_text style names.now) }
    ensures front { OnErr result (StartsWith out.new.items out.old.items) }
    ensures full { OnErr result (vec_capacity out.old < length (out.old.items ++ names_text style names.now)) }
    ensures kept { vec_capacity out.old ≤ vec_capacity out.new }
{
    let Some((first, others)) = names.split_first() else {
        return Ok(());
    };
    put_name(out, style, *first)?;
    put_others(out, style, others)
}

fn put_peak(out: &mut Vec<u8>, p: Peak) -> Result<(), NoMemory>
    ensures text { OnOk result (out.new.items ≡ out.old.items ++ peak_text p) }
    ensures front { OnErr result (StartsWith out.new.items out.old.items) }
    ensures full { OnErr result (vec_capacity out.old < length (out.old.items ++ peak_text p)) }
    ensures kept { vec_capacity out.old ≤ vec_capacity out.new }
{
    match p {
        Peak::Infinite => put(out, b"inf"),
        Peak::Finite(rate) => put_number(out, rate.value()),
    }
}

// The rate, the size and the peak rate of a token bucket.
fn put_bucket(out: &mut Vec<u8>, f: Flow) -> Result<(), NoMemory>
    ensures text { OnOk result (out.new.items ≡ out.old.items ++ (decimal f.r ++ codes "/" ++ decimal f.b ++ codes "/" ++ peak_text f.p)) }
    ensures front { OnErr result (StartsWith out.new.items out.old.items) }
    ensures full { OnErr result (vec_capacity out.old < length (out.old.items ++ (decimal f.r ++ codes "/" ++ decimal f.b ++ codes "/" ++ peak_text f.p))) }
    ensures kept { vec_capacity out.old ≤ vec_capacity out.new }
{
    put_number(out, f.r.value())?;
    put(out, b"/")?;
    put_number(out, f.b.value())?;
    put(out, b"/")?;
    put_peak(out, f.p)
}

// The sizes of packets of a token bucket, behind its peak rate.
fn put_sizes(out: &mut Vec<u8>, f: Flow) -> Result<(), NoMemory>
    ensures text { OnOk result (out.new.items ≡ out.old.items ++ (codes "/" ++ decimal f.low ++ codes "/" ++ decimal f.most)) }
    ensures front { OnErr result (StartsWith out.new.items out.old.items) }
    ensures full { OnErr result (vec_capacity out.old < length (out.old.items ++ (codes "/" ++ decimal f.low ++ codes "/" ++ decimal f.most))) }
    ensures kept { vec_capacity out.old ≤ vec_capacity out.new }
{
    put(out, b"/")?;
    put_number(out, u64::from(f.low))?;
    put(out, b"/")?;
    put_number(out, u64::from(f.most))
}

/// Appends a flow, as `1000/2000/inf/64/1500`: r and b and p in bytes per second, bytes and bytes per second, m and M in
/// bytes.
#[tactic(auto, unfolding(crate::specs::Texts::flow_text))]
pub fn put_flow(out: &mut Vec<u8>, f: Flow) -> Result<(), NoMemory>
    ensures text { OnOk result (out.new.items ≡ out.old.items ++ flow_text f) }
    ensures front { OnErr result (StartsWith out.new.items out.old.items) }
    ensures full { OnErr result (vec_capacity out.old < length (out.old.items ++ flow_text f)) }
    ensures kept { vec_capacity out.old ≤ vec_capacity out.new }
{
    put_bucket(out, f)?;
    put_sizes(out, f)
}
