//! Routes.
use rsvp_base::Addr;

/// How a node lies in the multicast tree of a group and source: the interface that leads to the source, and those by
/// which the source's packets go on (bit i is interface i).
#[derive(Clone, Copy, Debug, PartialEq, Eq)]
pub struct Route {
    pub group: Addr,
    pub source: Addr,
    pub inward: Option<u8>,
    pub outward: u16,
}
