//! The lines of a whole script are checked.
ghost use Rattle.std.specs.Prelude.{◌≡◌, ◌≤◌, [], OnOk, IfErr, vec_capacity};
ghost use Rattle.line_advice.specs.Blamed.{most_advice};
ghost use Rattle.script_grammar.specs.Asking.{AsksToBeTaken};
ghost use Rattle.script_grammar.specs.Draft.{nothing};
ghost use Rattle.script_grammar.specs.Grammar.{Follows, HasFault, Leads};
ghost use Rattle.script_words.specs.Lines.{text_lines};
ghost use Rattle.script_run.specs.Advised.{IsAdvised};
ghost use Rattle.script_demand.specs.Demanding.{HasAskingLine, StopsAt};
ghost use Rattle.script_demand.specs.Feeding.{MatchRefused};

use crate::telling::end_bad;
use script_grammar::{Fault, Stop};
use script_run::{Checks, Ending};
use script_words::next_line;
use std::alloc::Global;

// The most bytes of a line, its line feed not counted.
const MOST_LINE: usize = 2048;

/// Checks the lines of an input one after the other. It ends at the first bad line, or where memory runs out, which is at a line that
/// asks for memory.
/// `advice`, for which there is room, becomes the text that tells what is wrong with the bad line, and stays empty where memory runs out.
pub(crate) fn check_lines<C: Checks>(
    alloc: Global,
    checker: &mut C,
    input: &[u8],
    advice: &mut Vec<u8>,
) -> Result<(), Ending>
    requires first { C.lines checker.old ≡ nothing }
    requires empty { advice.old.items ≡ [] }
    requires room { most_advice ≤ vec_capacity advice.old }
    ensures quiet { OnOk result (advice.new.items ≡ []) }
    ensures advised { IfErr result (λ e. IsAdvised e input.now advice.new.items) }
    ensures taken { OnOk result (Leads nothing (text_lines input.now) (C.lines checker.new)) }
    ensures stopped { IfErr result (StopsAt input.now) }
    ensures asked { IfErr result (λ e. e ≡ Ending.NoMemory → HasAskingLine input.now) }
{
    let mut number: u32 = 0;
    let mut rest = input;
    while let Some((line, behind)) = next_line(rest) {
        number = number.saturating_add(1);
        match feed_line(checker, line) {
            Ok(()) => rest = behind,
            Err(Stop::Bad(why)) => {
                return Err(end_bad(alloc, checker, line, number, why, advice));
            }
            Err(Stop::Crowded) => return Err(Ending::Crowded),
            Err(Stop::NoMemory) => return Err(Ending::NoMemory),
        }
    }
    Ok(())
}

// Feeds a line, which is bad where it is too long.
fn feed_line<C: Checks>(checker: &mut C, line: &[u8]) -> Result<(), Stop>
    ensures follows { OnOk result (Follows (C.lines checker.old) line.now (C.lines checker.new)) }
    ensures refused { IfErr result (MatchRefused (HasFault (C.lines checker.old) line.now)) }
    ensures same { IfErr result (MatchRefused (λ why. C.lines checker.new ≡ C.lines checker.old)) }
    ensures asked { IfErr result (λ stop. stop ≡ Stop.NoMemory → AsksToBeTaken (C.lines checker.old) line.now) }
{
    if line.len() > MOST_LINE {
        return Err(Stop::Bad(Fault::Limit));
    }
    match checker.feed(line) {
        Ok(_event) => Ok(()),
        Err(refused) => Err(refused),
    }
}
