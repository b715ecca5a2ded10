//! Reservation styles.
ghost use Rattle.std.specs.Prelude.{◌≡◌};
ghost use Rattle.script_words.specs.Styles.{style_of};

use rsvp_base::StyleKind;

/// The style that a word names: `WF`, `FF` or `SE` (RFC 2205, 1.3); None where it is another word.
pub fn style(word: &[u8]) -> Option<StyleKind>
    ensures { result ≡ style_of word.now }
{
    match word {
        b"WF" => Some(StyleKind::Wild),
        b"FF" => Some(StyleKind::Fixed),
        b"SE" => Some(StyleKind::Shared),
        _ => None,
    }
}
