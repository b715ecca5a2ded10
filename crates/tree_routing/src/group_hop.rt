//! Hops of groups.
use rsvp_base::Addr;
use tree_model::LinkHop;

/// A hop of a group, in however many of its trees it stands.
#[derive(Clone, Copy, Debug, PartialEq, Eq)]
pub struct GroupHop {
    pub group: Addr,
    pub hop: LinkHop,
}
