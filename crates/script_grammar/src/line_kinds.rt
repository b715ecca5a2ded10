//! What the words of a line say.
ghost use Rattle.std.specs.Prelude.{◌≡◌, ◌∷◌, Err, IsTrue, map};
ghost use Rattle.script_words.specs.Unread.{Reads};
ghost use Rattle.script_words.specs.declared.unread.Unread.TheVariants.{NoMemory as OutOfMemory};
ghost use Rattle.script_grammar.specs.Reading.{HasList, IsOfList, TakesToRead};
ghost use Rattle.script_grammar.specs.LineKinds.{script_line_of, said_by};
ghost use Rattle.script_grammar.specs.SaidAs.{has_list, said_as};

mod declared;
mod happens;
mod left_over;
mod lists;

use crate::kind::{Kind, declared_kind};
use crate::line::ScriptLine;
use crate::word_list::few_words;
use arrayvec::ArrayVec;
use declared::{end_line, hop_line, latency_line, link_line, node_line, period_line, seed_line};
use happens::{
    advert_line, adverts_line, clear_line, copy_line, deliver_line, drop_line, flags_line,
    inject_line, lose_line, pass_line, quit_line, report_line, reroute_line, rounds_line,
    send_line, trace_line, wait_line, want_line,
};
use left_over::{stale_blockade_line, stale_path_line, stale_resv_line};
use script_words::{Unread, read_words};
use std::alloc::Global;

// The most words that are listed without memory.
const MOST_FEW: usize = 9;

/// What a line says. `words` is working space for a line of more than nine words: it is cleared and filled, so that lines share its
/// memory.
///
/// `Word` exactly where the words of a line, whose first byte is no `#`, are not of the form of one of the kinds. `NoMemory`, only of a
/// line of more than nine words, or of a kind in which words stand for a list: memory ran out.
pub fn read_line<'a>(
    alloc: Global,
    text: &'a [u8],
    words: &mut Vec<&'a [u8]>,
) -> Result<ScriptLine, Unread>
    ensures said { Reads result (script_line_of text.now) }
    ensures asked { result ≡ Err OutOfMemory → TakesToRead text.now }
{
    if text.first() == Some(&b'#') {
        return Ok(ScriptLine::Skipped);
    }
    let mut few: ArrayVec<&[u8], MOST_FEW> = ArrayVec::new();
    if few_words(text, &mut few) {
        return said_by(alloc, few.as_slice());
    }
    read_words(text, words)?;
    said_by(alloc, words.as_slice())
}

// What these words say.
#[tactic(auto, unfolding(crate::specs::LineKinds::said_by))]
fn said_by(alloc: Global, words: &[&[u8]]) -> Result<ScriptLine, Unread>
    ensures said { Reads result (said_by (map (λ w. w.now) words.now)) }
    ensures asked { result ≡ Err OutOfMemory → HasList (map (λ w. w.now) words.now) }
{
    let [first, behind @ ..] = words else {
        return Ok(ScriptLine::Skipped);
    };
    said_of(alloc, first, behind)
}

// What these words say behind this first one.
#[inline(always)]
#[tactic(auto, using(crate::proofs::SaidAs::reads_of_kind, crate::proofs::SaidAs::of_no_kind, crate::proofs::SaidAs::list_of_first))]
fn said_of(alloc: Global, first: &[u8], behind: &[&[u8]]) -> Result<ScriptLine, Unread>
    ensures said { Reads result (said_by (first.now ∷ map (λ w. w.now) behind.now)) }
    ensures asked { result ≡ Err OutOfMemory → IsOfList first.now }
{
    let Some(kind) = declared_kind(first) else {
        return Err(Unread::Word);
    };
    said_as(alloc, kind, behind)
}

// What the words behind the first one say in a line of a kind. All kinds stand in one function, since each function that hands a
// line on clears a room for it.
fn said_as(alloc: Global, kind: Kind, behind: &[&[u8]]) -> Result<ScriptLine, Unread>
    ensures said { Reads result (said_as kind (map (λ w. w.now) behind.now)) }
    ensures asked { result ≡ Err OutOfMemory → IsTrue (has_list kind) }
{
    let line = match kind {
        Kind::Wait => wait_line(behind),
        Kind::Pass => pass_line(behind),
        Kind::Rounds => rounds_line(behind),
        Kind::Deliver => deliver_line(behind),
        Kind::Lose => lose_line(behind),
        Kind::Copy => copy_line(behind),
        Kind::Period => period_line(behind),
        Kind::Seed => seed_line(behind),
        Kind::Node => node_line(behind),
        Kind::End => end_line(behind),
        Kind::Latency => latency_line(behind),
        Kind::Hop => hop_line(behind),
        Kind::StalePath => stale_path_line(behind),
        Kind::Blockade | Kind::HopBlockade | Kind::SenderBlockade => stale_blockade_line(behind),
        Kind::Send => send_line(behind),
        Kind::Drop => drop_line(behind),
        Kind::Advert => advert_line(behind),
        Kind::Quit => quit_line(behind),
        Kind::Clear => clear_line(behind),
        Kind::Trace => trace_line(behind),
        Kind::Report => report_line(behind),
        Kind::Flags => flags_line(behind),
        Kind::Adverts => adverts_line(behind),
        Kind::Link => return link_line(alloc, behind),
        Kind::StaleResv | Kind::WildResv => return stale_resv_line(alloc, behind),
        Kind::Want | Kind::WildWant => return want_line(alloc, behind),
        Kind::Inject => return inject_line(alloc, behind),
        Kind::Reroute => return reroute_line(alloc, behind),
    };
    line.ok_or(Unread::Word)
}
