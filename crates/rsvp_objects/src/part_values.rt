//! Values that fields of an ADSPEC have.

/// The Class-Num of an ADSPEC (RFC 2205, A.12).
pub const ADSPEC: u8 = 13;

/// Its C-Type: that of integrated services (RFC 2210, 3.3).
pub const INTSERV: u8 = 2;

/// The version, and how many words of the general part are behind that word.
pub const VERSION: u8 = 0;

pub const BEHIND_VERSION: u16 = 9;

/// The byte with the break bit, where it is set.
pub const BREAK: u8 = 0x80;

/// The first word of a controlled-load fragment whose break bit is not set.
pub const LOAD_WORD: u32 = 0x0500_0000;

/// The services that are read, and how many words of the general one are behind its first.
pub mod service {
    pub const GENERAL: u8 = 1;

    pub const CONTROLLED_LOAD: u8 = 5;

    pub const BEHIND_GENERAL: u16 = 8;
}

/// The parameters of the general part (RFC 2215), and how many words each has.
pub mod parameter {
    pub const HOPS: u8 = 4;

    pub const RATE: u8 = 6;

    pub const LATENCY: u8 = 8;

    pub const MTU: u8 = 10;

    pub const WORDS: u16 = 1;
}
