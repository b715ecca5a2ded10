//! The frames with which a router answers.
ghost use Rattle.std.specs.Prelude.{◌≡◌, ◌≤◌, ◌+◌, ◌++◌, length, vec_len, vec_capacity};
ghost use Rattle.node_stream.specs.Answers.{heard_frame, sent_frame, why_number};

use router_rules::{Heard, Why};
use rsvp_base::Addr;

/// Appends the frame of a datagram that goes out by an interface, to an address. There is room for it.
pub fn put_sent(out: &mut Vec<u8>, iface: u8, dst: Addr, datagram: &[u8])
    requires few { length datagram.now ≤ 65530 }
    requires room { vec_len out.old + 8 + length datagram.now ≤ vec_capacity out.old }
    ensures items { out.new.items ≡ out.old.items ++ sent_frame iface dst datagram.now }
    ensures len { vec_len out.new ≡ vec_len out.old + 8 + length datagram.now }
    ensures capacity { vec_capacity out.old ≤ vec_capacity out.new }
{
    let l = (5 + datagram.len() as u16).to_be_bytes();
    let d = dst.0.to_be_bytes();
    put(out, &[16, l[0], l[1], iface, d[0], d[1], d[2], d[3]]);
    put(out, datagram);
}

/// Appends the frame that says what was made of a datagram. There is room for it.
pub fn put_heard(out: &mut Vec<u8>, heard: Heard)
    requires room { vec_len out.old + 7 ≤ vec_capacity out.old }
    ensures items { out.new.items ≡ out.old.items ++ heard_frame heard }
    ensures len { vec_len out.new ≤ vec_len out.old + 7 }
    ensures capacity { vec_capacity out.old ≤ vec_capacity out.new }
{
    match heard {
        Heard::Taken => put(out, &[17, 0, 1, 0]),
        Heard::Dropped(why) => put(out, &[17, 0, 2, 1, why_number(why)]),
        Heard::Answered(code, value) => {
            let v = value.to_be_bytes();
            put(out, &[17, 0, 4, 2, code, v[0], v[1]]);
        }
    }
}

fn why_number(why: Why) -> u8
    ensures { result ≡ why_number why }
{
    match why {
        Why::Unspelt => 0,
        Why::NotMine => 1,
        Why::NoSender => 2,
        Why::NotInward => 3,
        Why::NotOutward => 4,
        Why::NoState => 5,
        Why::Full => 6,
    }
}

// Appends bytes for which there is room.
fn put(out: &mut Vec<u8>, bytes: &[u8])
    requires { vec_len out.old + length bytes.now ≤ vec_capacity out.old }
    ensures items { out.new.items ≡ out.old.items ++ bytes.now }
    ensures len { vec_len out.new ≡ vec_len out.old + length bytes.now }
    ensures capacity { vec_capacity out.old ≤ vec_capacity out.new }
{
    let _ = out.extend_from_slice(bytes);
}
