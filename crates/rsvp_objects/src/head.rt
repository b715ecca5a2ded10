//! Heads of objects.
use crate::class::Class;

/// The first four bytes of an object at a place (RFC 2205, 3.1.2).
#[derive(Clone, Copy, Debug, PartialEq, Eq)]
pub struct Head {
    /// Class-Num.
    pub class: Class,
    /// C-Type.
    pub ctype: u8,
    /// The place after the object.
    pub end: usize,
}
