//! Lines of hexadecimal digits.
ghost use Rattle.std.specs.Prelude.{◌≡◌, ◌≢◌, ◌⊎◌, ◌++◌, ◌≤◌, ◌<◌, [], ℕ, List, length, take, Err, IfOk, IfErr, OnOk, vec_capacity};
ghost use Rattle.script_words.specs.LineFaults.{MatchParseErr};
ghost use Rattle.line_advice.specs.Blamed.{most_advice};
ghost use Rattle.message_show.specs.ShowLines.{HasShownLine, IsBadDigits, IsRight, IsShown, IsShownOf, IsWrong, Says};
ghost use Rattle.message_show.specs.ShowAdvice.{IsToldDigits};
ghost use Rattle.message_show.specs.Stops.{MatchStop};

use crate::advice::put_digits_advice;
use crate::reading::put_reading;
use crate::stop::Stop;
use hex::decode_to_slice;
use line_advice::make_room;
use script_words::{LineErr, LineWhy, ParseErr, next_line};
use std::alloc::Global;

/// The most digits of a line: two for each byte of a message, which has at most 4,096, and for one byte more.
pub const MOST_DIGITS: usize = 8194;

// How many bytes they are.
const MOST_BYTES: usize = 4097;

// Makes the front of `room` the bytes that the digits of a line say, and answers how many those are.
fn read_digits(line: &[u8], room: &mut [u8]) -> Result<usize, LineWhy>
    requires { length room.old ≡ 4097 }
    ensures says { IfOk result (λ n. Says line.now (take n room.new)) }
    ensures few { IfOk result (λ n. n ≤ 4097) }
    ensures wrong { IfErr result (IsWrong line.now) }
{
    if line.len() > MOST_DIGITS {
        return Err(LineWhy::Limit);
    }
    let n = line.len() / 2;
    match decode_to_slice(line, &mut room[..n]) {
        Ok(()) => Ok(n),
        Err(_) => Err(LineWhy::Word),
    }
}

// Appends what is shown of a line.
fn put_line(out: &mut Vec<u8>, line: &[u8], room: &mut [u8]) -> Result<(), Stop>
    requires { length room.old ≡ 4097 }
    ensures shown { OnOk result ((text : List ℕ) × IsShownOf line.now text × (out.new.items ≡ out.old.items ++ text)) }
    ensures wrong { IfErr result (MatchStop (IsWrong line.now)) }
    ensures right { IfErr result (λ stop. stop ≡ Stop.NoMemory → IsRight line.now) }
    ensures some { IfErr result (λ stop. stop ≡ Stop.NoMemory → line.now ≢ []) }
{
    if line.is_empty() {
        return Ok(());
    }
    let n = match read_digits(line, room) {
        Ok(n) => n,
        Err(why) => return Err(Stop::Bad(why)),
    };
    match put_reading(out, &room[..n]) {
        Ok(()) => Ok(()),
        Err(_) => Err(Stop::NoMemory),
    }
}

/// What is shown of an input: for each line that is not empty, the line of its message or of the first fault of its bytes.
/// Or the first bad line: `Limit` where it has more than `MOST_DIGITS` bytes, else `Word` where a byte of it is no
/// hexadecimal digit or their number is odd. `advice` becomes the text that says what is wrong with that line; where no line is
/// bad, it is empty. `NoMemory`: memory ran out, at a right line that is not empty, of the text, or at the beginning, of the room for
/// `advice`.
pub fn show(alloc: Global, input: &[u8], advice: &mut Vec<u8>) -> Result<Vec<u8>, ParseErr>
    ensures shown { IfOk result (λ text. IsShown input.now text.items) }
    ensures refused { IfErr result (MatchParseErr (IsBadDigits input.now)) }
    ensures advised { IfErr result (MatchParseErr (IsToldDigits input.now advice.new.items)) }
    ensures asked { result ≡ Err ParseErr.NoMemory → (vec_capacity advice.old < most_advice) ⊎ HasShownLine input.now }
    ensures quiet { OnOk result (advice.new.items ≡ []) × (result ≡ Err ParseErr.NoMemory → advice.new.items ≡ []) }
{
    advice.clear();
    match make_room(advice) {
        Ok(()) => {}
        Err(_) => return Err(ParseErr::NoMemory),
    }
    let mut out = Vec::new(alloc);
    let mut room = [0u8; MOST_BYTES];
    let mut number: u32 = 0;
    let mut rest = input;
    while let Some((line, behind)) = next_line(rest) {
        number = number.saturating_add(1);
        match put_line(&mut out, line, &mut room) {
            Ok(()) => rest = behind,
            Err(Stop::Bad(why)) => {
                put_digits_advice(advice, line, why);
                return Err(ParseErr::Line(LineErr { line: number, why }));
            }
            Err(Stop::NoMemory) => return Err(ParseErr::NoMemory),
        }
    }
    Ok(out)
}
