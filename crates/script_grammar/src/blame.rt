//! What of a bad line breaks the rule.
ghost use Rattle.std.specs.Prelude.{◌≡◌, ◌<◌, ◌≤◌, [], IfSome, None, Some, length, map};
ghost use Rattle.script_words.specs.Flows.{IsFlow, flow_of};
ghost use Rattle.script_words.specs.Words.{words_of};
ghost use Rattle.script_words.specs.declared.raw.FlowWord.{FlowWord as FlowWordOf};
ghost use Rattle.script_grammar.specs.Asking.{AsksToBeTaken};
ghost use Rattle.script_grammar.specs.Fields.{IsInRange};
ghost use Rattle.script_grammar.specs.Grammar.{HasFault};
ghost use Rattle.script_grammar.specs.LineKinds.{script_line_of};
ghost use Rattle.line_advice.specs.FlowFaults.{IsFlowFault};
ghost use Rattle.line_advice.specs.declared.flow_faults.FlowFault.{FlowFault as FlowFaultOf};
ghost use Rattle.script_grammar.specs.Blames.{IsBlamed, IsBlamedOf, IsOfOtherStyle, IsOutOfRange, IsPassed, IsRangeBlame, IsThere, behind_first, rule_blame, unknown_blame};
ghost use Rattle.script_grammar.specs.Known.{unknown_from};

use crate::breaks::{first_linked, limit, new_rule, other_style, word_behind};
use crate::fault::Fault;
use crate::field::Field;
use crate::first_words::first_out;
use crate::forms::word_blame;
use crate::kind::Kind;
use crate::known::{LinesBefore, is_known};
use crate::named::Named;
use crate::rule::Rule;
use crate::tree_blames::of_tree;
use crate::word_list::few_words;
use arrayvec::ArrayVec;
use line_advice::{FlowFault, flow_fault};
use network_model::Excess;
use rsvp_base::StyleKind;
use script_words::FlowWord;
use std::alloc::Global;
use tree_routing::HopFault;

/// What of a bad line breaks the rule. Words have numbers from 0.
#[derive(Clone, Copy)]
pub enum Blame {
    /// Carriage returns, which stand where line feeds would.
    Returns,
    /// The first word, by which no line begins.
    First,
    /// The word of this number, which begins a comment behind other words.
    Comment {
        word: usize,
    },
    /// The number of its words, as a line of this kind.
    Count(Kind),
    /// The word of this number, which has not the form of this field.
    Form {
        word: usize,
        field: Field,
    },
    /// The word of this number, which is not in the range of this field, where the refresh period is this, in milliseconds.
    Range {
        word: usize,
        field: Field,
        period: u32,
    },
    /// The word of this number, which is a flow with a number out of range.
    Flow {
        word: usize,
        fault: FlowFault,
    },
    /// The word of this number, which is the name of what no line before declares.
    Unknown {
        word: usize,
        named: Named,
    },
    /// The word of this number, which is the name of an end that is in another link.
    Linked {
        word: usize,
    },
    /// Its style: the wishes that stand are of this one.
    Styled(StyleKind),
    /// What it reserves: the end has less.
    Over(Excess),
    /// Its length.
    Long,
    /// The word of this number, which is an end of a hop by which the tree cannot grow, for this reason.
    Hop {
        word: usize,
        why: HopFault,
    },
    /// What this rule says of lines of this kind.
    Rule {
        rule: Rule,
        kind: Kind,
    },
}

// The most bytes of a line, its line feed not counted, and the most words that they can be.
const MOST_LINE: usize = 2048;

const MOST_WORDS: usize = 1024;

/// What of a line with this fault behind these lines breaks the rule: the first word that does, where one alone does.
///
/// `None`, of a line that has this fault only where it asks for memory: there was no room to look at the lines before.
pub fn find_blame<B: LinesBefore>(
    alloc: Global,
    before: &B,
    line: &[u8],
    why: &Fault,
) -> Option<Blame>
    ensures blamed { IfSome result (IsBlamed (B.lines before.now) line.now why.now) }
    ensures asked { result ≡ None → HasFault (B.lines before.now) line.now why.now → AsksToBeTaken (B.lines before.now) line.now }
{
    if line.len() > MOST_LINE {
        return Some(Blame::Long);
    }
    let mut words: ArrayVec<&[u8], MOST_WORDS> = ArrayVec::new();
    list_words(line, &mut words);
    blame_of(alloc, before, line, words.as_slice(), why)
}

// Makes an empty list the words of a line that is not too long.
fn list_words<'a>(line: &'a [u8], words: &mut ArrayVec<&'a [u8], MOST_WORDS>)
    requires short { length line.now ≤ 2048 }
    requires empty { words.old.items ≡ [] }
    ensures { map (λ w. w.now) words.new.items ≡ words_of line.now }
{
    let _all = few_words(line, words);
}

// What of a line with these words breaks the rule.
#[tactic(auto, using(crate::proofs::Asked::style_asks))]
fn blame_of<B: LinesBefore>(
    alloc: Global,
    before: &B,
    line: &[u8],
    words: &[&[u8]],
    why: &Fault,
) -> Option<Blame>
    ensures blamed { IfSome result (IsBlamedOf (B.lines before.now) (script_line_of line.now) (map (λ w. w.now) words.now) why.now) }
    ensures asked { result ≡ None → HasFault (B.lines before.now) line.now why.now → AsksToBeTaken (B.lines before.now) line.now }
{
    let kind = Kind::of(words);
    let behind = behind_first(words);
    match why {
        Fault::Word => Some(word_blame(words)),
        Fault::Late => Some(rule_blame(Rule::InTime, kind)),
        Fault::Range => Some(out_of_range(before.period(), kind, behind)),
        Fault::Name => Some(unknown(before, kind, behind)),
        Fault::Twice => Some(there(before, kind, behind)),
        Fault::Style => of_other_style(before, words),
        Fault::Limit => Some(passed(before, kind, behind)),
        Fault::NotTree => of_tree(alloc, before, line),
        Fault::Over(much) => Some(Blame::Over(*much)),
        Fault::Loop { .. } => Some(rule_blame(Rule::LoopFree, kind)),
    }
}

// The rule, by the kind of the line.
fn rule_blame(rule: Rule, kind: Option<Kind>) -> Blame
    ensures { result ≡ rule_blame rule kind }
{
    match kind {
        None => Blame::First,
        Some(kind) => Blame::Rule { rule, kind },
    }
}

// What these words say that is there already.
fn there<B: LinesBefore>(before: &B, kind: Option<Kind>, behind: &[&[u8]]) -> Blame
    ensures { IsThere (B.lines before.now) kind (map (λ w. w.now) behind.now) result }
{
    let Some(kind) = kind else {
        return Blame::First;
    };
    match new_rule(before, kind, behind) {
        Some(rule) => Blame::Rule { rule, kind },
        None => match first_linked(before, behind) {
            Some(place) => Blame::Linked { word: place + 1 },
            None => Blame::Count(kind),
        },
    }
}

// The limit that these words pass.
fn passed<B: LinesBefore>(before: &B, kind: Option<Kind>, behind: &[&[u8]]) -> Blame
    ensures { IsPassed (B.lines before.now) kind (map (λ w. w.now) behind.now) result }
{
    let Some(kind) = kind else {
        return Blame::First;
    };
    Blame::Rule {
        rule: limit(before, kind, behind),
        kind,
    }
}

// The style that stands where these words ask for another. `None`: there was no room to look, or none stands.
fn of_other_style<B: LinesBefore>(before: &B, words: &[&[u8]]) -> Option<Blame>
    ensures { IfSome result (IsOfOtherStyle (B.lines before.now) (map (λ w. w.now) words.now)) }
{
    Some(Blame::Styled(other_style(before, behind_first(words))?))
}

/// The words behind the first one.
pub fn behind_first<'a, 'b>(words: &'a [&'b [u8]]) -> &'a [&'b [u8]]
    ensures words { map (λ w. w.now) result.now ≡ behind_first (map (λ w. w.now) words.now) }
    ensures counted { length result.now ≡ length (behind_first (map (λ w. w.now) words.now)) }
{
    match words {
        [] => &[],
        [_, behind @ ..] => behind,
    }
}

// What of these words is out of range.
fn out_of_range(period: u32, kind: Option<Kind>, behind: &[&[u8]]) -> Blame
    ensures { IsOutOfRange period kind (map (λ w. w.now) behind.now) result }
{
    let Some(kind) = kind else {
        return Blame::First;
    };
    match first_out(period, kind, behind) {
        Some(place) => range_blame(
            period,
            kind.field_at(place),
            place + 1,
            word_behind(behind, place),
        ),
        None => Blame::Rule {
            rule: Rule::InRange,
            kind,
        },
    }
}

// The word of this number, which is out of the range of its field; of a flow the number.
fn range_blame(period: u32, field: Field, number: usize, word: &[u8]) -> Blame
    requires out { IsInRange period field word.now → ⊥ }
    ensures { IsRangeBlame period field number word.now result }
{
    match field {
        Field::Flow => flow_blame(number, word),
        _ => Blame::Range {
            word: number,
            field,
            period,
        },
    }
}

fn flow_blame(number: usize, word: &[u8]) -> Blame
    requires out { IfSome (flow_of word.now) IsFlow → ⊥ }
    ensures { (flow : FlowWordOf) × (fault : FlowFaultOf) × (flow_of word.now ≡ Some flow) × IsFlowFault flow fault × (result ≡ Blame.Flow number fault) }
{
    match FlowWord::of(word) {
        Some(flow) => match flow_fault(&flow) {
            Some(fault) => Blame::Flow {
                word: number,
                fault,
            },
            None => Blame::Long,
        },
        None => Blame::Long,
    }
}

// What names what no line before declares.
fn unknown<B: LinesBefore>(before: &B, kind: Option<Kind>, behind: &[&[u8]]) -> Blame
    ensures { result ≡ unknown_blame (B.lines before.now) kind (map (λ w. w.now) behind.now) }
{
    let Some(kind) = kind else {
        return Blame::First;
    };
    let rule = Blame::Rule {
        rule: Rule::Known,
        kind,
    };
    match first_unknown(before, kind, behind) {
        Some(place) => match kind.named_at(place) {
            Some(named) => Blame::Unknown {
                word: place + 1,
                named,
            },
            None => rule,
        },
        None => rule,
    }
}

// The place of the first of these words that is a name of what no line before declares. `None` exactly where there is none.
fn first_unknown<B: LinesBefore>(before: &B, kind: Kind, words: &[&[u8]]) -> Option<usize>
    ensures first { result ≡ unknown_from (B.lines before.now) kind 0 (map (λ w. w.now) words.now) }
    ensures within { IfSome result (λ place. place < length words.now) }
{
    let mut place: usize = 0;
    let mut rest = words;
    while let [word, behind @ ..] = rest {
        if !is_known(before, kind.named_at(place), word) {
            return Some(place);
        }
        place += 1;
        rest = behind;
    }
    None
}
