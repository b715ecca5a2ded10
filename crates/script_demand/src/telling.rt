//! How the checking of lines ends at a bad line.
ghost use Rattle.std.specs.Prelude.{◌≤◌, vec_capacity};
ghost use Rattle.line_advice.specs.Blamed.{most_advice};
ghost use Rattle.script_demand.specs.Telling.{EndsTold};

use script_grammar::{Fault, LinesBefore, put_advice};
use script_run::Ending;
use std::alloc::Global;

/// How a check of lines ends at the line of this number, which is bad for this reason behind those before. `advice`, for which there is
/// room, becomes the text that tells what is wrong with it; or memory to look at the lines before ran out, and it is empty.
pub fn end_bad<B: LinesBefore>(
    alloc: Global,
    before: &B,
    line: &[u8],
    number: u32,
    why: Fault,
    advice: &mut Vec<u8>,
) -> Ending
    requires room { most_advice ≤ vec_capacity advice.old }
    ensures { EndsTold (B.lines before.now) line.now number why result advice.new.items }
{
    match put_advice(alloc, before, line, &why, advice) {
        Ok(()) => Ending::BadLine { line: number, why },
        Err(_) => Ending::NoMemory,
    }
}
