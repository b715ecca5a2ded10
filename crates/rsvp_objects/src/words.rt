//! The first words of fragments.
ghost use Rattle.std.specs.Prelude.{◌≡◌, ◌<◌, ◌^◌};
ghost use Rattle.rsvp_objects.specs.Fragment as spec;

// Where the service and the break bit stand in the first word of a fragment; its last 16 bits are the length.
const SERVICE_AT: u32 = 24;

const BREAK_AT: u32 = 23;

/// The break bit.
pub const BREAK_BIT: u32 = 1 << 23;

const LENGTHS: u32 = 1 << 16;

/// The service.
pub fn service(word: u32) -> u8
    ensures { result ≡ spec.service word }
{
    (word >> SERVICE_AT) as u8
}

/// Whether the break bit is set.
pub fn is_broken(word: u32) -> bool
    ensures { result ≡ spec.is_broken word }
{
    (word >> BREAK_AT) % 2 == 1
}

/// How many words follow.
pub fn counted(word: u32) -> u32
    ensures is { result ≡ spec.counted word }
    ensures short { result < 2 ^ 16 }
{
    word % LENGTHS
}

/// The same word with the break bit set.
pub fn with_break(word: u32) -> u32
    ensures { result ≡ spec.with_break word }
{
    if is_broken(word) {
        word
    } else {
        word + BREAK_BIT
    }
}
