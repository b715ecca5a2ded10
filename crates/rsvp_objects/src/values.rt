//! Values that fields of objects have.

/// The C-Type of the objects that have IPv4 addresses or none, and of those of integrated services (RFC 2210, 3).
pub mod ctype {
    pub const IPV4: u8 = 1;

    pub const INTSERV: u8 = 2;
}

/// The option vector of a STYLE (RFC 2205, A.7): which style its last five bits say.
pub mod style {
    /// A byte modulo this is its last five bits.
    pub const FIVE_BITS: u8 = 32;

    pub const WILDCARD: u8 = 0b10001;

    pub const FIXED: u8 = 0b01010;

    pub const SHARED_EXPLICIT: u8 = 0b10010;
}

/// The service of a FLOWSPEC (RFC 2211) and of a SENDER_TSPEC (RFC 2210, 3.1).
pub mod service {
    pub const CONTROLLED_LOAD: u8 = 5;

    pub const GENERAL: u8 = 1;
}

/// What the first three words of a flow say besides the service (RFC 2210, 3.1): version 0, how many words are behind
/// each, and the one parameter, a token bucket.
pub mod flow {
    pub const VERSION: u8 = 0;

    pub const BEHIND_VERSION: u16 = 7;

    pub const BEHIND_SERVICE: u16 = 6;

    pub const TOKEN_BUCKET: u8 = 127;

    pub const BEHIND_PARAMETER: u16 = 5;
}
