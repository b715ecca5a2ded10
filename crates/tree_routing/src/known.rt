//! What a topology keeps of a hop.
use tree_model::TreeHop;

/// A hop of a tree, and where it stands in the graph of its group. A hop is one vertex there, in however many trees it
/// stands, and an edge leads to it from the hop before it in each of them.
#[derive(Clone, Copy, Debug, PartialEq, Eq)]
pub(crate) struct Known {
    pub(crate) hop: TreeHop,
    /// The place at which this hop of this group stands first.
    pub(crate) vertex: u16,
    /// The vertex of the hop before it in its tree; none at the root.
    pub(crate) before: Option<u16>,
}
