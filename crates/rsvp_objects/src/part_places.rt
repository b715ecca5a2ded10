//! Where the fields of an ADSPEC stand: in the contents behind its head (RFC 2210, 3.3.1).
pub const VERSION: usize = 0;

pub const WORDS_BEHIND_VERSION: usize = 2;

pub const SERVICE: usize = 4;

pub const BREAK: usize = 5;

pub const WORDS_BEHIND_SERVICE: usize = 6;

/// Behind a parameter's place: its length, and its value.
pub const WORDS_BEHIND_PARAMETER: usize = 2;

pub const VALUE: usize = 4;

pub const HOPS: usize = 8;

pub const RATE: usize = 16;

pub const LATENCY: usize = 24;

pub const MTU: usize = 32;

pub const FRAGMENTS: usize = 40;

/// The size of a word.
pub const WORD_SIZE: usize = 4;

/// In the object: its Class-Num, its C-Type, its contents (RFC 2205, 3.1.2).
pub mod object {
    pub const CLASS: usize = 2;

    pub const CTYPE: usize = 3;

    pub const CONTENTS: usize = 4;
}
