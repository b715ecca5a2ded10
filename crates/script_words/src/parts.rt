//! Parts of a text round a separator.
ghost use Rattle.std.specs.Prelude.{◌≡◌, ◌<◌, ◌==◌, [], ◌∷◌, length, position, None, Some, MatchOption, IfSome};
ghost use Rattle.script_words.specs.Parts.{parts_of, two, three, four, five};

/// The first part of a text and what is behind its separator; None where there is no separator.
pub fn first_part(text: &[u8], separator: u8) -> Option<(&[u8], &[u8])>
    ensures parts { MatchOption result (parts_of separator text.now ≡ text.now ∷ [])
        (λ p. parts_of separator text.now ≡ p.0.now ∷ parts_of separator p.1.now) }
    ensures shorter { IfSome result (λ p. length p.1.now < length text.now) }
{
    let at = find(text, separator)?;
    let (first, behind) = text.split_at(at);
    Some((first, &behind[1..]))
}

fn find(text: &[u8], separator: u8) -> Option<usize>
    ensures { result ≡ position (λ c. c == separator) text.now }
{
    text.iter().position(|c| *c == separator)
}

/// The two parts of a text; None where it has another number of parts.
#[tactic(auto, using(crate::proofs::PartLemmas::two_none, crate::proofs::PartLemmas::some_parts))]
pub fn two_parts(text: &[u8], separator: u8) -> Option<(&[u8], &[u8])>
    ensures { MatchOption result (two (parts_of separator text.now) ≡ None)
        (λ p. two (parts_of separator text.now) ≡ Some (p.0.now, p.1.now)) }
{
    let (a, rest) = first_part(text, separator)?;
    if first_part(rest, separator).is_some() {
        return None;
    }
    Some((a, rest))
}

/// The three parts of a text; None where it has another number of parts.
pub fn three_parts(text: &[u8], separator: u8) -> Option<(&[u8], &[u8], &[u8])>
    ensures { MatchOption result (three (parts_of separator text.now) ≡ None)
        (λ p. three (parts_of separator text.now) ≡ Some (p.0.now, p.1.now, p.2.now)) }
{
    let (a, rest) = first_part(text, separator)?;
    let (b, c) = two_parts(rest, separator)?;
    Some((a, b, c))
}

/// The four parts of a text; None where it has another number of parts.
#[tactic(auto, using(crate::proofs::PartLemmas::four_of))]
pub fn four_parts(text: &[u8], separator: u8) -> Option<(&[u8], &[u8], &[u8], &[u8])>
    ensures { MatchOption result (four (parts_of separator text.now) ≡ None)
        (λ p. four (parts_of separator text.now) ≡ Some (p.0.now, p.1.now, p.2.now, p.3.now)) }
{
    let (a, rest) = first_part(text, separator)?;
    let (b, c, d) = three_parts(rest, separator)?;
    Some((a, b, c, d))
}

/// The five parts of a text; None where it has another number of parts.
#[tactic(auto, using(crate::proofs::PartLemmas::five_of))]
pub fn five_parts(text: &[u8], separator: u8) -> Option<(&[u8], &[u8], &[u8], &[u8], &[u8])>
    ensures { MatchOption result (five (parts_of separator text.now) ≡ None)
        (λ p. five (parts_of separator text.now) ≡ Some (p.0.now, p.1.now, p.2.now, p.3.now, p.4.now)) }
{
    let (a, rest) = first_part(text, separator)?;
    let (b, c, d, e) = four_parts(rest, separator)?;
    Some((a, b, c, d, e))
}
