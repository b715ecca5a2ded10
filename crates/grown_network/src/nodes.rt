//! The nodes of a grown network and the links between them.
ghost use Rattle.std.specs.Prelude.{◌≡◌, ◌<◌, ◌≤◌};
ghost use Rattle.grown_network.specs.Nodes.{above, down_end, end_of, home, up_end};
ghost use Rattle.script_words.specs.Addresses.{of_bytes};

use rsvp_base::{Addr, Iface};
use tree_model::End;

/// How many nodes there are.
pub(crate) const NODES: u16 = 64;

/// The node on which a node hangs, from 1 on.
pub(crate) fn above(node: u16) -> u16
    requires { 1 ≤ node }
    ensures { result ≡ above node }
{
    (node - 1) / 2
}

/// The number of the upper end of the link of a node.
pub(crate) fn down_end(node: u16) -> u16
    requires { 1 ≤ node × (node < 64) }
    ensures { result ≡ down_end node }
{
    2 * (node - 1)
}

/// The number of its lower end.
pub(crate) fn up_end(node: u16) -> u16
    requires { 1 ≤ node × (node < 64) }
    ensures { result ≡ up_end node }
{
    2 * (node - 1) + 1
}

/// The address 10.1.node.host.
pub(crate) fn address(node: u16, host: u8) -> Addr
    requires { node < 64 }
    ensures { result ≡ of_bytes 10 1 node host }
{
    Addr(0x0a01_0000 + u32::from(node) * 256 + u32::from(host))
}

/// The address of a node: that of its upward end, and of its first downward end where it has none.
pub(crate) fn home(node: u16) -> Addr
    requires { node < 64 }
    ensures { result ≡ home node }
{
    if node == 0 {
        address(1, 1)
    } else {
        address(node, 2)
    }
}

/// An end of a node, with this address.
pub(crate) fn end_of(node: u16, addr: Addr) -> End
    ensures { result ≡ end_of node addr }
{
    End {
        node,
        iface: Iface {
            addr,
            capacity: 70_000_000,
            mtu: 1500,
            latency: 0,
        },
    }
}
