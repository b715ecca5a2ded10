//! Words of a line.
ghost use Rattle.std.specs.Prelude.{◌≡◌, ◌<◌, length, map, OnOk, OnErr, vec_capacity};
ghost use Rattle.script_words.specs.Words.{words_of, is_printable};

use crate::parts::first_part;
use std::alloc::AllocError;

/// Whether a line has no byte but spaces and printable ASCII characters.
pub fn is_printable(line: &[u8]) -> bool
    ensures { result ≡ is_printable line.now }
{
    line.iter().all(|c| b' ' <= *c && *c <= b'~')
}

/// Makes `words` the words of a line, in order. What the list held goes; its memory is used again, and more is taken
/// only where the line has more words than the list had room for. Where it runs out, the list holds some of the words.
pub fn read_words<'a>(line: &'a [u8], words: &mut Vec<&'a [u8]>) -> Result<(), AllocError>
    ensures ok { OnOk result (map (λ w. w.now) words.new.items ≡ words_of line.now) }
    ensures room { OnErr result (vec_capacity words.old < length (words_of line.now)) }
{
    words.clear();
    let mut rest = line;
    while let Some((part, behind)) = first_part(rest, b' ') {
        if !part.is_empty() {
            words.push(part)?;
        }
        rest = behind;
    }
    if !rest.is_empty() {
        words.push(rest)?;
    }
    Ok(())
}
