//! The contents of a frame of kind 1, by their places.
ghost use Rattle.std.specs.Prelude.{◌≡◌, ◌≤◌, ◌<◌, ◌+◌, ◌*◌, length};
ghost use Rattle.node_stream.specs.Layout as spec;

use byteorder::{BigEndian, ByteOrder};
use router_rules::Route;
use rsvp_base::Iface;
use rsvp_objects::{addr_at, half_at, word_at};

// The bytes of the period and the number of interfaces; of an interface; of the number of routes; of a route.
const HEAD_SIZE: usize = 5;

const IFACE_SIZE: usize = 16;

const COUNT_SIZE: usize = 2;

const ROUTE_SIZE: usize = 11;

// The byte in place of an interface, where there is none.
const NO_IFACE: u8 = 255;

/// Whether the number of interfaces and that of routes are there, and the length is theirs.
#[tactic(auto, unfolding(crate::specs::Layout::is_opening))]
pub(crate) fn is_opening(contents: &[u8]) -> bool
    ensures { result ≡ spec.is_opening contents.now }
{
    if contents.len() < HEAD_SIZE {
        return false;
    }
    let place = HEAD_SIZE + IFACE_SIZE * usize::from(contents[4]);
    if contents.len() < place + COUNT_SIZE {
        return false;
    }
    let routes = usize::from(half_at(contents, place));
    contents.len() == place + COUNT_SIZE + ROUTE_SIZE * routes
}

/// The period, in milliseconds.
pub(crate) fn period_in(contents: &[u8]) -> u32
    requires { spec.HasForm contents.now }
    ensures { result ≡ spec.period_in contents.now }
{
    word_at(contents, 0)
}

/// How many interfaces there are.
pub(crate) fn iface_count(contents: &[u8]) -> usize
    requires { spec.HasForm contents.now }
    ensures is { result ≡ spec.iface_count contents.now }
    ensures most { result ≤ 255 }
{
    usize::from(contents[4])
}

/// Interface k, from 0.
pub(crate) fn iface_at(contents: &[u8], k: usize) -> Iface
    requires form { spec.HasForm contents.now }
    requires there { k < spec.iface_count contents.now }
    ensures { result ≡ spec.iface_at contents.now k }
{
    let place = HEAD_SIZE + IFACE_SIZE * k;
    Iface {
        addr: addr_at(contents, place),
        capacity: BigEndian::read_u64(&contents[place + 4..]),
        mtu: word_at(contents, place + 12),
        latency: 0,
    }
}

/// How many routes there are.
pub(crate) fn route_count(contents: &[u8]) -> usize
    requires { spec.HasForm contents.now }
    ensures is { result ≡ spec.route_count contents.now }
    ensures most { result ≤ 65535 }
{
    let place = HEAD_SIZE + IFACE_SIZE * usize::from(contents[4]);
    usize::from(half_at(contents, place))
}

/// Route k, from 0.
pub(crate) fn route_at(contents: &[u8], k: usize) -> Route
    requires form { spec.HasForm contents.now }
    requires there { k < spec.route_count contents.now }
    ensures { result ≡ spec.route_at contents.now k }
{
    let place = HEAD_SIZE + IFACE_SIZE * usize::from(contents[4]) + COUNT_SIZE + ROUTE_SIZE * k;
    route_from(contents, place)
}

// The route whose bytes begin there.
fn route_from(contents: &[u8], place: usize) -> Route
    requires { place + 11 ≤ length contents.now }
    ensures { result ≡ spec.route_from place contents.now }
{
    Route {
        group: addr_at(contents, place),
        source: addr_at(contents, place + 4),
        inward: iface_of(contents[place + 8]),
        outward: half_at(contents, place + 9),
    }
}

fn iface_of(byte: u8) -> Option<u8>
    ensures { result ≡ spec.iface_of byte }
{
    if byte == NO_IFACE { None } else { Some(byte) }
}
