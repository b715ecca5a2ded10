//! A finger on a table.

/// Where a walk along the facts of a table was last. It only saves searching: no answer depends on it, so that a table may
/// change during the walk, and a walk may begin with any.
#[derive(Clone, Copy, Debug, Default, PartialEq, Eq)]
pub struct Finger {
    pub(crate) slot: u32,
}
