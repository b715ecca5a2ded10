//! Why no object stands at a place.

/// The first fault of the object at a place. Each has the place as its first number.
#[derive(Clone, Copy, Debug, PartialEq, Eq)]
pub enum ObjErr {
    /// Fewer than four bytes are left.
    Short(u16),
    /// The length is below four, no multiple of four, or passes the end.
    Length(u16),
    /// The class is unknown and below 128. The other numbers are the class and the C-Type.
    Class(u16, u8, u8),
    /// The C-Type is not that of the class. The other numbers are the class and the C-Type.
    CType(u16, u8, u8),
    /// The contents have not the size of their class.
    Contents(u16),
    /// A STYLE of no known style.
    Style(u16),
    /// A FLOWSPEC of another service than controlled load.
    Service(u16),
    /// A FLOWSPEC whose words are no token bucket.
    Flow(u16),
    /// A SENDER_TSPEC whose words are no token bucket.
    Tspec(u16),
    /// A SCOPE with more than 16 addresses.
    Crowd(u16),
}
