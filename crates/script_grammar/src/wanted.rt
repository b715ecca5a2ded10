//! No text of what is wanted is longer than there is room for.
ghost use Rattle.std.specs.Prelude.{◌≤◌, length};
ghost use Rattle.std.specs.Fmt.{decimal};
ghost use Rattle.line_advice.specs.Blamed.{most_wanted};
ghost use Rattle.line_advice.specs.FlowTexts.{flow_fault_text};
ghost use Rattle.script_grammar.specs.Advice.{excess_text, wanted_text};
ghost use Rattle.script_grammar.specs.FieldTexts.{range_text};

use crate::blame::Blame;
use crate::field::Field;
use crate::known::named_text;
use crate::texts::{first_text, form_text, rule_text, usage_text};
use crate::tree_blames::hop_text;
use line_advice::FlowFault;
use network_model::Excess;

/// Does nothing: what is wanted has at most 512 bytes.
#[tactic(auto, using(crate::proofs::Short::plain_short))]
pub(crate) fn wanted_is_short(blame: Blame)
    ensures { length (wanted_text blame) ≤ most_wanted }
{
    match blame {
        Blame::First => {
            let _text = first_text();
        }
        Blame::Count(kind) => {
            let _text = usage_text(kind);
        }
        Blame::Form { word: _, field } => {
            let _text = form_text(field);
        }
        Blame::Range {
            word: _,
            field,
            period,
        } => range_is_short(period, field),
        Blame::Flow { word: _, fault } => flow_is_short(fault),
        Blame::Unknown { word: _, named } => {
            let _text = named_text(named);
        }
        Blame::Over(much) => excess_is_short(much),
        Blame::Hop { word: _, why } => {
            let _text = hop_text(why);
        }
        Blame::Rule { rule, kind } => {
            let _text = rule_text(rule, kind);
        }
        _ => {}
    }
}

#[tactic(auto, using(crate::proofs::Short::range_short, crate::proofs::Short::lifetime_short, crate::proofs::Short::wall_lifetime_short))]
fn range_is_short(period: u32, field: Field)
    ensures { length (range_text period field) ≤ most_wanted }
{
    match field {
        Field::Left => digits_are_few(21 * (u64::from(period) / 4)),
        Field::WallLeft => digits_are_few(4 * u64::from(period)),
        _ => {}
    }
}

#[tactic(auto, using(crate::proofs::Short::nearest_short, crate::proofs::Short::flow_short))]
fn flow_is_short(fault: FlowFault)
    ensures { length (flow_fault_text fault) ≤ most_wanted }
{
    match fault {
        FlowFault::NoRate {
            rate: _,
            below,
            above,
        } => {
            digits_are_few(below);
            digits_are_few(above);
        }
        _ => {}
    }
}

#[tactic(auto, using(crate::proofs::Short::mtu_short, crate::proofs::Short::sum_short))]
fn excess_is_short(much: Excess)
    ensures { length (excess_text much) ≤ most_wanted }
{
    match much {
        Excess::Packet { most: _, mtu } => digits_are_few(u64::from(mtu)),
        Excess::Rate { sum, capacity } => {
            digits_are_few(capacity);
            sum_is_short(sum);
        }
    }
}

// Does nothing: a number of 64 bits has at most 20 digits.
#[tactic(auto, using(crate::proofs::Short::number_short))]
fn digits_are_few(n: u64)
    ensures { length (decimal n) ≤ 20 }
{
    let _ = n;
}

// Does nothing: one of 128 bits has at most 39.
#[tactic(auto, using(crate::proofs::Short::wide_short))]
fn sum_is_short(sum: u128)
    ensures { length (decimal sum) ≤ 39 }
{
    let _ = sum;
}
