//! The words of a line of few words, without memory.
ghost use Rattle.std.specs.Prelude.{◌≡◌, ◌↔◌, ◌≤◌, [], IsTrue, length, map};
ghost use Rattle.script_words.specs.Words.{words_of};

use arrayvec::ArrayVec;
use script_words::first_part;

/// Makes an empty list the words of a line, in order, where it has at most `N`: whether it has. Of a line that has more the list holds
/// the first `N`.
pub fn few_words<'a, const N: usize>(line: &'a [u8], words: &mut ArrayVec<&'a [u8], N>) -> bool
    requires { words.old.items ≡ [] }
    ensures few { IsTrue result ↔ length (words_of line.now) ≤ N }
    ensures words { IsTrue result → map (λ w. w.now) words.new.items ≡ words_of line.now }
{
    let mut rest = line;
    while let Some((part, behind)) = first_part(rest, b' ') {
        if !part.is_empty() {
            if words.is_full() {
                return false;
            }
            words.push(part);
        }
        rest = behind;
    }
    if !rest.is_empty() {
        if words.is_full() {
            return false;
        }
        words.push(rest);
    }
    true
}
