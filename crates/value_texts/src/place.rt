//! Where the words of a line stand.
ghost use Rattle.std.specs.Prelude.{◌≡◌, ◌+◌, ◌==◌, ◌∷◌, [], length, position, IfSome, MatchOption, None, Some};
ghost use Rattle.script_words.specs.Parts.{parts_of};
ghost use Rattle.value_texts.specs.Places.{word_at};

/// The word of this number, from 0, with its column, from 1. `None` exactly where the line has no such word.
pub fn word_at(line: &[u8], number: usize) -> Option<(usize, &[u8])>
    ensures { MatchOption result (word_at line.now number ≡ None) (λ p. word_at line.now number ≡ Some (p.0, p.1.now)) }
{
    let mut column: usize = 1;
    let mut left = number;
    let mut rest = line;
    while let Some((part, behind)) = first_part(rest) {
        if !part.is_empty() {
            if left == 0 {
                return Some((column, part));
            }
            left -= 1;
        }
        column += part.len() + 1;
        rest = behind;
    }
    if rest.is_empty() || left > 0 {
        return None;
    }
    Some((column, rest))
}

// What stands in front of the first space of a text, and what behind it; None where there is no space.
fn first_part(text: &[u8]) -> Option<(&[u8], &[u8])>
    ensures parts { MatchOption result (parts_of 32 text.now ≡ text.now ∷ []) (λ p. parts_of 32 text.now ≡ p.0.now ∷ parts_of 32 p.1.now) }
    ensures counted { IfSome result (λ p. length p.0.now + length p.1.now + 1 ≡ length text.now) }
{
    let at = space(text)?;
    let (first, behind) = text.split_at(at);
    Some((first, &behind[1..]))
}

fn space(text: &[u8]) -> Option<usize>
    ensures { result ≡ position (λ c. c == 32) text.now }
{
    text.iter().position(|c| *c == b' ')
}
