//! What a table says of a class.

/// How often objects of a class may stand in messages of a kind, before the list that follows a STYLE.
#[derive(Clone, Copy, Debug, PartialEq, Eq)]
pub enum Role {
    /// Once, and not less.
    Needed,
    /// Once, or not at all.
    Once,
    /// Any number of times. They are skipped.
    Unread,
    /// Not at all.
    Nowhere,
}
