//! Numbers.
ghost use Rattle.std.specs.Prelude.{◌≡◌, ◌≤◌, length, true};
ghost use Rattle.std.specs.List.{list_all};
ghost use Rattle.script_words.specs.Numbers.{value_of, number_of};
ghost use Rattle.rsvp_base.specs.EndNames.{is_digit};

/// The number that a word is; None where the word is neither 0 nor 1 to 20 decimal digits that do not begin with 0.
/// Twenty digits may pass the largest `u64`.
pub fn number(word: &[u8]) -> Option<u128>
    ensures { result ≡ number_of word.now }
{
    match word {
        [b'0'] => Some(0),
        [b'1'..=b'9', ..] if word.len() <= 20 && has_digits_only(word) => Some(value(word)),
        _ => None,
    }
}

fn has_digits_only(word: &[u8]) -> bool
    ensures { result ≡ list_all is_digit word.now }
{
    word.iter().all(|c| b'0' <= *c && *c <= b'9')
}

// What decimal digits stand for.
fn value(digits: &[u8]) -> u128
    requires digits { list_all is_digit digits.now ≡ true }
    requires few { length digits.now ≤ 20 }
    ensures { result ≡ value_of digits.now }
{
    let mut n: u128 = 0;
    for c in digits {
        n = n * 10 + (*c - b'0') as u128;
    }
    n
}
