//! What all ends owe, and whether they can.
use crate::end_book::EndBook;

/// What all ends owe.
#[derive(Drop)]
pub struct Demand {
    /// The demand of each end, by its number.
    pub ends: Vec<EndBook>,
    /// Whether each end can carry what it owes, each session is wanted in one style, and no node needs more than its tables
    /// hold.
    pub fits: bool,
}
