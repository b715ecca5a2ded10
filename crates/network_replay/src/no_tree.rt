//! A tree that a network cannot have.

/// A tree that a network cannot have: there is no room for its hops beside those of the other trees, they do not grow from the node
/// of its source, or with them a chain of the group is closed.
#[derive(Clone, Copy, Debug, PartialEq, Eq)]
pub struct NoTree;
