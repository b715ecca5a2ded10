//! Words of a line, read where they lie.
ghost use Rattle.std.specs.Prelude.{◌≡◌, ◌∷◌, [], MatchOption};
ghost use Rattle.script_words.specs.Words.{words_of};

use script_words::first_part;

/// The first word of a line, and what is behind it. `None` exactly where the line has no word.
pub fn first_word(line: &[u8]) -> Option<(&[u8], &[u8])>
    ensures { MatchOption result (words_of line.now ≡ []) (λ p. words_of line.now ≡ p.0.now ∷ words_of p.1.now) }
{
    let mut rest = line;
    while let Some((part, behind)) = first_part(rest, b' ') {
        if !part.is_empty() {
            return Some((part, behind));
        }
        rest = behind;
    }
    if rest.is_empty() {
        return None;
    }
    Some((rest, &[]))
}
