//! What checks and runs the lines of a script.
ghost use Rattle.std.specs.Prelude.{◌≡◌, ◌≤◌, List, ℕ, length, vec_capacity};
ghost use Rattle.line_advice.specs.Blamed.{most_advice};
ghost use Rattle.script_grammar.specs.Draft.{Draft};
ghost use Rattle.script_grammar.specs.Advice.{IsAdviceOrNone};
ghost use Rattle.script_run.specs.Playing.{Plays};
ghost use Rattle.script_run.specs.Shown.{ShowsOn};
ghost use Rattle.script_run.specs.Written.{IsRunSoFar};

use network_replay::Watch;
use rsvp_base::NoMemory;
use script_grammar::{Fault, Stop};

/// What checks and runs the lines of a script, one after another.
pub trait Player {
    /// The lines that lead to this draft were played, and their events were run.
    ghost stands: { Self → Draft → Type 0 };

    /// Checks a line, and where it is one of an event runs it and appends the event's text. `watch` sees all that happens.
    ///
    /// `Bad`: exactly where the line cannot follow those before, which stay the lines so far. `Crowded`: exactly where the run is
    /// crowded by it, and no more lines may be played. `NoMemory`, only where the line asks for memory: it ran out, and no more lines
    /// may be played.
    fn play<W: Watch>(&mut self, line: &[u8], watch: &mut W, out: &mut Vec<u8>) -> Result<(), Stop>
        requires { length line.now ≤ 2048 }
        ensures { (d : Draft) (said : List ℕ) → stands self.old d → IsRunSoFar d said
            → Plays (λ e. stands self.new e × ShowsOn W.saw watch.old watch.new d e) d said line.now result out.old.items out.new.items };

    /// Makes `advice`, for which there is room, the text that tells what is wrong with a line that has this fault behind the lines so far.
    /// `NoMemory`, of a line that has this fault only where it asks for memory to be taken: it ran out, and `advice` is empty.
    fn advise(&self, line: &[u8], why: &Fault, advice: &mut Vec<u8>) -> Result<(), NoMemory>
        requires room { most_advice ≤ vec_capacity advice.old }
        ensures { (d : Draft) → stands self.now d → IsAdviceOrNone d line.now why.now result advice.new.items };
}
