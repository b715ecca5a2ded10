//! Which rule of a tree a line breaks, and by which of its words.
ghost use Rattle.std.specs.Prelude.{◌≡◌, ◌≤◌, None, Some, IfSome, IsSome, length};
ghost use Rattle.line_advice.specs.Blamed.{most_wanted};
ghost use Rattle.script_grammar.specs.Asking.{AsksMemory, AsksToBeTaken};
ghost use Rattle.script_grammar.specs.Grammar.{HasFault};
ghost use Rattle.script_grammar.specs.LineKinds.{script_line_of};
ghost use Rattle.script_grammar.specs.declared.fault.Fault.TheVariants as fault;
ghost use Rattle.script_grammar.specs.declared.line.ScriptLine.TheVariants as said;
ghost use Rattle.script_grammar.specs.TreeBlames.{BreaksTree, IsTreeBlame, hop_blame, hop_text, hop_word};

use crate::blame::Blame;
use crate::known::LinesBefore;
use crate::line::{HopLine, RerouteLine, ScriptLine};
use crate::line_kinds::read_line;
use script_words::Unread;
use std::alloc::Global;
use tree_routing::HopFault;

/// Which rule of a tree a line breaks first. `None`, of a line that breaks one only where it asks for memory: there was no room to look.
#[tactic(auto, using(crate::proofs::Asked::tree_asks, crate::proofs::Asked::word_has_none))]
pub(crate) fn of_tree<B: LinesBefore>(alloc: Global, before: &B, line: &[u8]) -> Option<Blame>
    ensures blamed { IfSome result (IsTreeBlame (B.lines before.now) (script_line_of line.now)) }
    ensures asked { result ≡ None → HasFault (B.lines before.now) line.now fault.NotTree → AsksToBeTaken (B.lines before.now) line.now }
{
    let mut words = Vec::new(alloc);
    match read_line(alloc, line, &mut words) {
        Ok(said) => of_said(before, &said),
        Err(Unread::Word) => None,
        Err(Unread::NoMemory) => None,
    }
}

#[tactic(auto, using(crate::proofs::Asked::reroute_asks, crate::proofs::Asked::others_keep))]
fn of_said<B: LinesBefore>(before: &B, said: &ScriptLine) -> Option<Blame>
    ensures blamed { IfSome result (IsTreeBlame (B.lines before.now) (Some said.now)) }
    ensures asked { result ≡ None → BreaksTree (B.lines before.now) said.now → AsksMemory (B.lines before.now) said.now }
{
    match said {
        ScriptLine::Hop(line) => of_hop(before, line),
        ScriptLine::Reroute(line) => of_hops(before, line),
        _ => None,
    }
}

fn of_hop<B: LinesBefore>(before: &B, line: &HopLine) -> Option<Blame>
    ensures blamed { IfSome result (IsTreeBlame (B.lines before.now) (Some (said.Hop line.now))) }
    ensures broken { result ≡ None → BreaksTree (B.lines before.now) (said.Hop line.now) → ⊥ }
{
    let group = line.group.addr()?;
    let source = line.source.addr()?;
    let why = before.hop_fault(group, source, &line.ends)?;
    hop_blame(3, why)
}

fn of_hops<B: LinesBefore>(before: &B, line: &RerouteLine) -> Option<Blame>
    ensures { IfSome result (IsTreeBlame (B.lines before.now) (Some (said.Reroute line.now))) }
{
    let source = line.source.addr()?;
    let (place, why) = before.tree_fault(source, line.hops.as_slice()).ok()??;
    hop_blame(place.checked_mul(2)?.checked_add(3)?, why)
}

// A hop, whose first end is the word of this number. `None`: its second end has no number.
fn hop_blame(first: usize, why: HopFault) -> Option<Blame>
    ensures blamed { IfSome result (λ blame. blame ≡ hop_blame first why) }
    ensures numbered { first ≤ 3 → IsSome result }
{
    let word = hop_word(first, why)?;
    Some(Blame::Hop { word, why })
}

fn hop_word(first: usize, why: HopFault) -> Option<usize>
    ensures word { IfSome result (λ word. word ≡ hop_word first why) }
    ensures numbered { first ≤ 3 → IsSome result }
{
    match why {
        HopFault::NoLink => first.checked_add(1),
        HopFault::Early => Some(first),
        HopFault::Reversed => Some(first),
        HopFault::Twice => first.checked_add(1),
        HopFault::OtherEnd => Some(first),
    }
}

/// What is said of a hop by which its tree cannot grow.
pub(crate) fn hop_text(why: HopFault) -> &'static [u8]
    ensures text { result.now ≡ hop_text why }
    ensures few { length result.now ≤ most_wanted }
{
    match why {
        HopFault::NoLink => b"no link joins this end to the one before it",
        HopFault::Early =>
            b"the tree has not reached the node of this end: the hop into a node comes before those out of it",
        HopFault::Reversed =>
            b"the tree has reached the node of the next end and not that of this one: a hop goes out of the node that is reached",
        HopFault::Twice =>
            b"the tree has already reached the node of this end: one hop goes into each node, and none into that of the source",
        HopFault::OtherEnd =>
            b"at most one end of a link sends for a tree, and another one of this link does",
    }
}
