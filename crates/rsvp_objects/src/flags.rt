//! Flag bytes, as sets of flags.
ghost use Rattle.std.specs.Prelude.{◌≡◌, ◌+◌, ⊤, [], ◌∷◌, codes};
ghost use Rattle.rsvp_objects.specs.Fields.{has_flag, flag_if};
ghost use Rattle.rsvp_objects.specs.Contents.{e_police, in_place, not_guilty};

use bitflags::{Flag, Flags, bitflag_items};

/// The flags of a SESSION (RFC 2205, A.1). A byte may have others set: they are kept out of the way, and never written.
#[derive(Clone, Copy)]
pub struct SessionFlags(u8);

bitflag_items! {
    impl SessionFlags: u8 {
        const E_POLICE = 0x01;
    }
}

impl Flags for SessionFlags {
    type Bits = u8;

    ghost exact = { ⊤ };

    ghost table = { (codes "E_POLICE", 1) ∷ [] };

    ghost set_of = { λ f. f.0 };

    fn flags<'a>() -> &'a [Flag<SessionFlags>] {
        SessionFlags::FLAGS
    }

    fn bits(&self) -> u8 {
        self.0
    }

    fn from_bits_retain(bits: u8) -> SessionFlags {
        SessionFlags(bits)
    }
}

/// The flags of an ERROR_SPEC (RFC 2205, A.5).
#[derive(Clone, Copy)]
pub struct ErrorFlags(u8);

bitflag_items! {
    impl ErrorFlags: u8 {
        const IN_PLACE = 0x01;
        const NOT_GUILTY = 0x02;
    }
}

impl Flags for ErrorFlags {
    type Bits = u8;

    ghost exact = { ⊤ };

    ghost table = { (codes "IN_PLACE", 1) ∷ (codes "NOT_GUILTY", 2) ∷ [] };

    ghost set_of = { λ f. f.0 };

    fn flags<'a>() -> &'a [Flag<ErrorFlags>] {
        ErrorFlags::FLAGS
    }

    fn bits(&self) -> u8 {
        self.0
    }

    fn from_bits_retain(bits: u8) -> ErrorFlags {
        ErrorFlags(bits)
    }
}

/// Whether a SESSION's byte of flags has E_Police.
pub fn is_police(byte: u8) -> bool
    ensures { result ≡ has_flag e_police byte }
{
    SessionFlags::from_bits_retain(byte).contains(SessionFlags::E_POLICE)
}

/// Whether an ERROR_SPEC's byte of flags has InPlace.
pub fn is_in_place(byte: u8) -> bool
    ensures { result ≡ has_flag in_place byte }
{
    ErrorFlags::from_bits_retain(byte).contains(ErrorFlags::IN_PLACE)
}

/// Whether an ERROR_SPEC's byte of flags has NotGuilty.
pub fn is_not_guilty(byte: u8) -> bool
    ensures { result ≡ has_flag not_guilty byte }
{
    ErrorFlags::from_bits_retain(byte).contains(ErrorFlags::NOT_GUILTY)
}

/// The byte of flags of a SESSION.
pub fn session_flags(police: bool) -> u8
    ensures { result ≡ flag_if police e_police }
{
    let mut flags = SessionFlags::empty();
    flags.set(SessionFlags::E_POLICE, police);
    flags.bits()
}

/// The byte of flags of an ERROR_SPEC.
pub fn error_flags(is_in_place: bool, is_not_guilty: bool) -> u8
    ensures { result ≡ flag_if is_in_place in_place + flag_if is_not_guilty not_guilty }
{
    let mut flags = ErrorFlags::empty();
    flags.set(ErrorFlags::IN_PLACE, is_in_place);
    flags.set(ErrorFlags::NOT_GUILTY, is_not_guilty);
    flags.bits()
}
