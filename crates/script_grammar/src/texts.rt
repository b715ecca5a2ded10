//! What is wanted, in words.
ghost use Rattle.std.specs.Prelude.{◌≡◌, ◌≤◌, ◌<◌, ◌++◌, OnErr, OnOk, length, vec_capacity};
ghost use Rattle.line_advice.specs.Blamed.{most_wanted};
ghost use Rattle.script_grammar.specs.FieldTexts.{form_text, range_text};
ghost use Rattle.script_grammar.specs.KindTexts.{first_text, usage_text};
ghost use Rattle.script_grammar.specs.RuleTexts.{in_time_text, known_text, known_word, limit_word, list_word, new_text, new_word, rule_text, rule_word, within_limits_text};

use crate::field::Field;
use crate::kind::Kind;
use crate::rule::Rule;
use rsvp_base::NoMemory;
use value_texts::{put, put_number};

/// The form of a field.
pub fn form_text(field: Field) -> &'static [u8]
    ensures text { result.now ≡ form_text field }
    ensures few { length result.now ≤ most_wanted }
{
    match field {
        Field::Period =>
            b"milliseconds, without a unit: a number is 0, or 1 to 20 digits of which the first is not 0",
        Field::Seed => b"a number is 0, or 1 to 20 digits of which the first is not 0",
        Field::Name =>
            b"a name is 1 to 16 lower-case letters, digits and _, beginning with a letter",
        Field::Host => b"an address is four numbers up to 255 joined by dots",
        Field::Capacity =>
            b"bytes per second, without a unit or a letter for thousands: a number is 0, or 1 to 20 digits of which the first is not 0",
        Field::Mtu =>
            b"bytes, without a unit: a number is 0, or 1 to 20 digits of which the first is not 0",
        Field::Latency =>
            b"microseconds, without a unit: a number is 0, or 1 to 20 digits of which the first is not 0",
        Field::Group => b"an address is four numbers up to 255 joined by dots",
        Field::Address => b"an address is four numbers up to 255 joined by dots",
        Field::Session => b"a session is GROUP/PROTO/PORT, as 239.1.1.1/17/5004",
        Field::Sender => b"a sender is ADDR:PORT, as 10.0.1.1:5004",
        Field::Senders => b"senders are ADDR:PORT, joined by commas without spaces",
        Field::Addresses => b"the senders of WF are addresses joined by commas without spaces",
        Field::Anyone => b"a wish of the style WF names no sender: * stands here",
        Field::Style => b"a style is WF, FF or SE",
        Field::Flow => b"a flow is r/b/p/m/M: five numbers, of which p may be inf",
        Field::Left =>
            b"milliseconds, without a unit: a number is 0, or 1 to 20 digits of which the first is not 0",
        Field::WallLeft =>
            b"milliseconds, without a unit: a number is 0, or 1 to 20 digits of which the first is not 0",
        Field::Sub => b"a number is 0, or 1 to 20 digits of which the first is not 0",
        Field::Target => b"a blockade is of a hop or of a sender: hop or sender stands here",
        Field::Switch => b"a trace is on or off",
        Field::Digits => b"bytes are an even number of hexadecimal digits, at least two",
        Field::Confirm => b"behind the flow of a wish only confirm may stand",
        Field::Wait =>
            b"milliseconds, without a unit: a number is 0, or 1 to 20 digits of which the first is not 0",
        Field::Passes => b"a number is 0, or 1 to 20 digits of which the first is not 0",
        Field::Rounds => b"a number is 0, or 1 to 20 digits of which the first is not 0",
        Field::Place => b"a number is 0, or 1 to 20 digits of which the first is not 0",
    }
}

/// Appends the range of a field, where the refresh period is this, in milliseconds. `NoMemory`: there was no memory for the text.
pub fn put_range(out: &mut Vec<u8>, period: u32, field: Field) -> Result<(), NoMemory>
    ensures text { OnOk result (out.new.items ≡ out.old.items ++ range_text period field) }
    ensures full { OnErr result (vec_capacity out.old < length (out.old.items ++ range_text period field)) }
    ensures kept { vec_capacity out.old ≤ vec_capacity out.new }
{
    match field {
        Field::Left => {
            put(out, b"a number of milliseconds, from 1 to ")?;
            put_number(out, 21 * (u64::from(period) / 4))
        }
        Field::WallLeft => {
            put(out, b"a number of milliseconds, from 1 to ")?;
            put_number(out, 4 * u64::from(period))
        }
        Field::Period => put(
            out,
            b"a number of milliseconds, from 1000 to 60000, that 4 divides",
        ),
        Field::Seed => put(out, b"a number up to 18446744073709551615"),
        Field::Host => put(
            out,
            b"each part of an address is at most 255, and an end has neither 0.0.0.0 nor a group, 224.0.0.0 to 239.255.255.255",
        ),
        Field::Capacity => put(out, b"a number of bytes per second, up to 70368744177663"),
        Field::Mtu => put(out, b"a number of bytes, from 1 to 65535"),
        Field::Latency => put(out, b"a number of microseconds, up to 4294967295"),
        Field::Group => put(
            out,
            b"a group is an address from 224.0.0.0 to 239.255.255.255",
        ),
        Field::Address => put(out, b"each part of an address is at most 255"),
        Field::Session => put(
            out,
            b"a group is from 224.0.0.0 to 239.255.255.255, a protocol from 1 to 255, a port at most 65535",
        ),
        Field::Sender => put(
            out,
            b"each part of an address is at most 255, and a port at most 65535",
        ),
        Field::Senders => put(
            out,
            b"each part of an address is at most 255, and a port at most 65535",
        ),
        Field::Addresses => put(out, b"each part of an address is at most 255"),
        Field::Flow => put(out, form_text(field)),
        Field::Sub => put(out, b"2 for the rate, 3 for the packet size"),
        Field::Wait => put(out, b"a number of milliseconds, from 1 to 3600000"),
        Field::Passes => put(out, b"a number from 1 to 1000"),
        Field::Rounds => put(out, b"a number from 1 to 10000"),
        Field::Place => put(out, b"a number from 1 to 8192"),
        Field::Name => put(out, form_text(field)),
        Field::Anyone => put(out, form_text(field)),
        Field::Style => put(out, form_text(field)),
        Field::Target => put(out, form_text(field)),
        Field::Switch => put(out, form_text(field)),
        Field::Digits => put(out, form_text(field)),
        Field::Confirm => put(out, form_text(field)),
    }
}

/// The words of a line of a kind.
pub fn usage_text(kind: Kind) -> &'static [u8]
    ensures text { result.now ≡ usage_text kind }
    ensures few { length result.now ≤ most_wanted }
{
    match kind {
        Kind::Period => b"a period line is: period MS",
        Kind::Seed => b"a seed line is: seed N",
        Kind::Node => b"a node line is: node NAME",
        Kind::End => b"an end line is: end NAME NODE ADDR CAPACITY MTU",
        Kind::Latency => b"a latency line is: latency END MICROSECONDS",
        Kind::Link => b"a link line is: link END END .., with two to eight ends",
        Kind::Hop => b"a hop line is: hop GROUP SOURCE END END",
        Kind::StalePath =>
            b"a stale-path line is: stale-path NODE SESSION SENDER END ADDR FLOW LEFT",
        Kind::StaleResv =>
            b"a stale-resv line is: stale-resv END SESSION STYLE ADDR SENDERS FLOW LEFT",
        Kind::WildResv =>
            b"a stale-resv line is: stale-resv END SESSION STYLE ADDR SENDERS FLOW LEFT",
        Kind::Blockade =>
            b"a stale-blockade line is: stale-blockade NODE SESSION hop END ADDR SUB FLOW LEFT, or stale-blockade NODE SESSION sender SENDER SUB FLOW LEFT",
        Kind::HopBlockade =>
            b"a stale-blockade line of a hop is: stale-blockade NODE SESSION hop END ADDR SUB FLOW LEFT",
        Kind::SenderBlockade =>
            b"a stale-blockade line of a sender is: stale-blockade NODE SESSION sender SENDER SUB FLOW LEFT",
        Kind::Send => b"a send line is: send NODE SESSION SENDER FLOW",
        Kind::Drop => b"a drop line is: drop NODE SESSION SENDER",
        Kind::Advert => b"an advert line is: advert NODE SESSION SENDER",
        Kind::Want =>
            b"a want line is: want NODE SESSION WF * FLOW [confirm], or want NODE SESSION FF|SE SENDERS FLOW [confirm]",
        Kind::WildWant =>
            b"a want line is: want NODE SESSION WF * FLOW [confirm], or want NODE SESSION FF|SE SENDERS FLOW [confirm]",
        Kind::Quit => b"a quit line is: quit NODE SESSION",
        Kind::Clear => b"a clear line is: clear NODE",
        Kind::Wait => b"a wait line is: wait MS",
        Kind::Pass => b"a pass line is: pass, or pass N",
        Kind::Rounds => b"a rounds line is: rounds N",
        Kind::Deliver => b"a deliver line is: deliver K",
        Kind::Lose => b"a lose line is: lose K",
        Kind::Copy => b"a copy line is: copy K",
        Kind::Inject => b"an inject line is: inject END ADDR HEX",
        Kind::Trace => b"a trace line is: trace on, or trace off",
        Kind::Report => b"a report line is: report, or report END",
        Kind::Flags => b"a flags line is: flags",
        Kind::Adverts => b"an adverts line is: adverts",
        Kind::Reroute =>
            b"a reroute line is: reroute GROUP SOURCE END END .., a pair of ends for each hop",
    }
}

/// What a rule says of the lines of a kind.
pub fn rule_text(rule: Rule, kind: Kind) -> &'static [u8]
    ensures text { result.now ≡ rule_text rule kind }
    ensures few { length result.now ≤ most_wanted }
{
    match rule {
        Rule::InTime => in_time_text(kind),
        Rule::InRange =>
            b"two of these ends are of one node, and the ends of a link are of different ones",
        Rule::Known => known_text(kind),
        Rule::New => new_text(kind),
        Rule::NewName => b"an earlier line declares an end of this name",
        Rule::NewAddress => b"an earlier line declares an end with this address",
        Rule::NewSender => b"no sender stands twice in a list",
        Rule::WithinLimits => within_limits_text(kind),
        Rule::OneSender => b"a reservation of the style FF names one sender",
        Rule::FewSenders => b"a list has at most 16 senders",
        Rule::FewSessions => b"at most 32 sessions are named, and this would be one more",
        Rule::LoopFree =>
            b"no chain of hops of a group is closed: a shared reservation could go round it",
    }
}

fn in_time_text(kind: Kind) -> &'static [u8]
    ensures text { result.now ≡ in_time_text kind }
    ensures few { length result.now ≤ most_wanted }
{
    match kind {
        Kind::Period => b"a period and a seed come before the first node",
        Kind::Seed => b"a period and a seed come before the first node",
        Kind::Node => b"what is declared comes before what is left over and what happens",
        Kind::End => b"what is declared comes before what is left over and what happens",
        Kind::Latency => b"what is declared comes before what is left over and what happens",
        Kind::Link => b"what is declared comes before what is left over and what happens",
        Kind::Hop => b"what is declared comes before what is left over and what happens",
        _ => b"what is left over comes before what happens",
    }
}

// What a line names, where each node and each end is declared.
fn known_text(kind: Kind) -> &'static [u8]
    ensures text { result.now ≡ known_text kind }
    ensures few { length result.now ≤ most_wanted }
{
    match kind {
        Kind::Hop => b"no end has this address",
        Kind::StalePath => b"no end of NODE has this name",
        Kind::HopBlockade => b"no end of NODE has this name",
        Kind::Send => b"no end of NODE has the address of this sender",
        Kind::Drop => b"NODE does not send as this sender in this session",
        Kind::Advert => b"NODE does not send as this sender in this session",
        Kind::Quit => b"NODE asks for nothing in this session",
        Kind::Reroute => b"no hop line has this GROUP and SOURCE",
        _ => b"an earlier line declares each node and each end",
    }
}

fn new_text(kind: Kind) -> &'static [u8]
    ensures text { result.now ≡ new_text kind }
    ensures few { length result.now ≤ most_wanted }
{
    match kind {
        Kind::Period => b"an earlier line gives the period",
        Kind::Seed => b"an earlier line gives the seed",
        Kind::Node => b"an earlier line declares a node of this name",
        Kind::Latency => b"an earlier line gives the latency of this end",
        Kind::StalePath => b"a path of one session and sender is left over at a node once",
        Kind::HopBlockade => b"a blockade of one session and hop is left over at a node once",
        Kind::SenderBlockade => b"a blockade of one session and sender is left over at a node once",
        Kind::Want => b"no sender stands twice in a list",
        _ =>
            b"a reservation of one session, style and next hop, for FF of one sender too, is left over on an end once",
    }
}

fn within_limits_text(kind: Kind) -> &'static [u8]
    ensures text { result.now ≡ within_limits_text kind }
    ensures few { length result.now ≤ most_wanted }
{
    match kind {
        Kind::Node => b"a network has at most 256 nodes",
        Kind::End => b"a node has at most 16 ends",
        Kind::Link => b"a network has at most 512 links",
        Kind::Hop => b"all trees together have at most 8192 hops",
        Kind::StalePath => b"at a node paths of at most 16 senders of one session are left over",
        Kind::StaleResv =>
            b"a node keeps at most 1024 reservations of a style, and of one session at most 64 next hops and 16 senders in them",
        Kind::WildResv =>
            b"a node keeps at most 1024 reservations of a style, and of one session at most 64 next hops and 16 senders in them",
        Kind::HopBlockade => b"a node keeps at most 512 blockades",
        Kind::SenderBlockade => b"a node keeps at most 512 blockades",
        Kind::Send => b"at most 16 senders of one session send at once",
        Kind::Want => b"a node has at most 16 wishes in one session",
        Kind::WildWant => b"a node has at most 16 wishes in one session",
        Kind::Reroute => b"all trees together have at most 8192 hops",
        Kind::Adverts => b"a script has at most 16 adverts lines",
        _ => b"a script has at most 16 report and flags lines",
    }
}

/// The number, from 0, of the only word of which a rule speaks in the lines of a kind. `None` exactly where it speaks
/// of none, or of several.
pub fn rule_word(rule: Rule, kind: Kind) -> Option<usize>
    ensures { result ≡ rule_word rule kind }
{
    match rule {
        Rule::Known => known_word(kind),
        Rule::New => new_word(kind),
        Rule::NewName => Some(1),
        Rule::NewAddress => Some(3),
        Rule::NewSender => Some(5),
        Rule::WithinLimits => limit_word(kind),
        Rule::OneSender => Some(5),
        Rule::FewSenders => Some(list_word(kind)),
        Rule::FewSessions => Some(2),
        _ => None,
    }
}

fn known_word(kind: Kind) -> Option<usize>
    ensures { result ≡ known_word kind }
{
    match kind {
        Kind::Hop => Some(2),
        Kind::StalePath => Some(4),
        Kind::HopBlockade => Some(4),
        Kind::Send => Some(3),
        Kind::Drop => Some(3),
        Kind::Advert => Some(3),
        Kind::Quit => Some(2),
        _ => None,
    }
}

fn new_word(kind: Kind) -> Option<usize>
    ensures { result ≡ new_word kind }
{
    match kind {
        Kind::Node => Some(1),
        Kind::Latency => Some(1),
        Kind::Want => Some(4),
        _ => None,
    }
}

// The node of an end.
fn limit_word(kind: Kind) -> Option<usize>
    ensures { result ≡ limit_word kind }
{
    match kind {
        Kind::End => Some(2),
        _ => None,
    }
}

// The list of senders.
fn list_word(kind: Kind) -> usize
    ensures { result ≡ list_word kind }
{
    match kind {
        Kind::Want => 4,
        _ => 5,
    }
}

/// By what first words lines begin.
pub fn first_text() -> &'static [u8]
    ensures text { result.now ≡ first_text }
    ensures few { length result.now ≤ most_wanted }
{
    b"a line begins with period, seed, node, end, latency, link, hop, stale-path, stale-resv, stale-blockade, send, advert, drop, want, quit, wait, pass, rounds, deliver, lose, copy, clear, inject, reroute, trace, report, flags or adverts, and a comment with # as its very first byte"
}
