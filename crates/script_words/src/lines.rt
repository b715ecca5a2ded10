//! Lines of a text.
ghost use Rattle.std.specs.Prelude.{◌≡◌, ◌<◌, ◌↔◌, [], ◌∷◌, length, MatchOption, IfSome, IsNone};
ghost use Rattle.script_words.specs.Lines.{text_lines};

use crate::parts::first_part;

/// The first line of a text, without its line feed, and what is behind it; None exactly where no byte is left.
pub fn next_line(text: &[u8]) -> Option<(&[u8], &[u8])>
    ensures lines { MatchOption result (text_lines text.now ≡ []) (λ p. text_lines text.now ≡ p.0.now ∷ text_lines p.1.now) }
    ensures end { IsNone result ↔ (text.now ≡ []) }
    ensures shorter { IfSome result (λ p. length p.1.now < length text.now) }
{
    if text.is_empty() {
        return None;
    }
    match first_part(text, b'\n') {
        Some((line, behind)) => Some((line, behind)),
        None => Some((text, &[])),
    }
}
