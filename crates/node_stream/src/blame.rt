//! What of a bad frame breaks which rule.
ghost use Rattle.std.specs.Prelude.{◌≡◌};
ghost use Rattle.node_stream.specs.Blames.{why_of};

use script_words::LineWhy;

/// What of a bad frame breaks which rule. Interfaces and routes have numbers from 0.
#[derive(Clone, Copy, Debug, PartialEq, Eq)]
pub enum Blame {
    /// The input ends inside the three bytes of its head.
    Head,
    /// The input ends inside its contents: so many bytes are wanted, and so many came.
    Cut {
        kind: u8,
        wanted: usize,
        got: usize,
    },
    /// Its kind, which there is not.
    Kind {
        kind: u8,
    },
    /// Its length, which does not fit its kind or its counts.
    Length {
        kind: u8,
        size: usize,
    },
    /// Its place: it is the first, and not of kind 1.
    Early {
        kind: u8,
    },
    /// Its place: it is of kind 1, and not the first.
    Again,
    /// The period, in milliseconds.
    Period {
        ms: u32,
    },
    /// The number of interfaces.
    ManyIfaces {
        count: usize,
    },
    /// The capacity of an interface, in bytes per second.
    Capacity {
        iface: usize,
        bytes: u64,
    },
    /// The MTU of an interface, in bytes.
    Mtu {
        iface: usize,
        bytes: u32,
    },
    /// The address of an interface, which one before it has.
    SameAddr {
        iface: usize,
    },
    /// The inward interface of a route, which there is not.
    Inward {
        route: usize,
        iface: u8,
        count: usize,
    },
    /// The outward interfaces of a route, of which one there is not.
    Outward {
        route: usize,
        ways: u16,
        count: usize,
    },
    /// The group and source of a route, which one before it has.
    SameTree {
        route: usize,
    },
    /// The interface by which a datagram came, which there is not.
    NoIface {
        iface: u8,
        count: usize,
    },
    /// The milliseconds of a wait, and the most that they may be.
    Wait {
        ms: u32,
        most: u32,
    },
}

/// The reason for which the frame is bad.
pub fn why_of(blame: Blame) -> LineWhy
    ensures { result ≡ why_of blame }
{
    match blame {
        Blame::Head | Blame::Cut { .. } | Blame::Kind { .. } | Blame::Length { .. } =>
            LineWhy::Word,
        Blame::Early { .. } | Blame::Again => LineWhy::Late,
        _ => LineWhy::Range,
    }
}
