//! Where the fields of objects stand: in an object, in the contents behind its head, or in the words of a flow.

/// In an object (RFC 2205, 3.1.2).
pub mod object {
    pub const CLASS: usize = 2;

    pub const CTYPE: usize = 3;

    pub const CONTENTS: usize = 4;
}

/// In the contents of a SESSION (RFC 2205, A.1).
pub mod session {
    pub const GROUP: usize = 0;

    pub const PROTO: usize = 4;

    pub const FLAGS: usize = 5;

    pub const PORT: usize = 6;
}

/// In the contents of an RSVP_HOP (RFC 2205, A.2).
pub mod hop {
    pub const ADDR: usize = 0;

    pub const HANDLE: usize = 4;
}

/// In the contents of a TIME_VALUES (RFC 2205, A.4).
pub mod time_values {
    pub const PERIOD: usize = 0;
}

/// In the contents of an ERROR_SPEC (RFC 2205, A.5).
pub mod error_spec {
    pub const NODE: usize = 0;

    pub const FLAGS: usize = 4;

    pub const CODE: usize = 5;

    pub const VALUE: usize = 6;
}

/// In the contents of a STYLE (RFC 2205, A.7): the last byte of the option vector.
pub mod style {
    pub const OPTIONS: usize = 3;
}

/// In the contents of a FILTER_SPEC or a SENDER_TEMPLATE (RFC 2205, A.9 and A.10).
pub mod sender {
    pub const ADDR: usize = 0;

    pub const PORT: usize = 6;
}

/// In the contents of a RESV_CONFIRM (RFC 2205, A.14).
pub mod resv_confirm {
    pub const RECEIVER: usize = 0;
}

/// In the contents of a FLOWSPEC or a SENDER_TSPEC (RFC 2210, 3.1 and 3.2), and their size.
pub mod flow {
    pub const VERSION: usize = 0;

    pub const WORDS_BEHIND_VERSION: usize = 2;

    pub const SERVICE: usize = 4;

    pub const WORDS_BEHIND_SERVICE: usize = 6;

    pub const PARAMETER: usize = 8;

    pub const WORDS_BEHIND_PARAMETER: usize = 10;

    pub const R: usize = 12;

    pub const B: usize = 16;

    pub const P: usize = 20;

    pub const LOW: usize = 24;

    pub const MOST: usize = 28;

    pub const SIZE: usize = 32;
    /// From this size on the service can be seen.
    pub const SERVICE_SEEN: usize = 8;
}

/// The size of an address.
pub const ADDR_SIZE: usize = 4;
