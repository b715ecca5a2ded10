//! Fields of lines: the form and the range of each.
ghost use Rattle.std.specs.Prelude.{◌≡◌, ◌↔◌, ◌<◌, IfSome, IsTrue, is_some};
ghost use Rattle.std.specs.List.{All, list_all};
ghost use Rattle.hex.specs.Hex.{is_hex_digit};
ghost use Rattle.script_words.specs.Addresses.{IsAddr, quad_of, quads_of};
ghost use Rattle.script_words.specs.Flows.{IsFlow, flow_of};
ghost use Rattle.script_words.specs.Numbers.{number_of};
ghost use Rattle.script_words.specs.Parts.{parts_of};
ghost use Rattle.script_words.specs.Sessions.{IsSender, IsSession, sender_of, senders_of, session_of};
ghost use Rattle.script_grammar.specs.LineKinds.{bytes_of};
ghost use Rattle.script_grammar.specs.Values.{IsFrom1To, IsPeriod, IsSub};
ghost use Rattle.script_grammar.specs.Fields.{IsGroupWord, IsHostWord, IsInRange, has_form};

use rsvp_base::EndName;
use script_words::{
    DottedQuad, FlowWord, SenderWord, SessionWord, first_part, is_group, is_host, number, style,
};

/// A field of a line: what one of its words says.
#[derive(Clone, Copy)]
pub enum Field {
    /// The refresh period, in milliseconds.
    Period,
    /// Where the random words start.
    Seed,
    /// The name of a node or an end.
    Name,
    /// The address of an end.
    Host,
    /// In bytes per second.
    Capacity,
    /// In bytes.
    Mtu,
    /// In microseconds.
    Latency,
    /// A multicast group.
    Group,
    /// Another address.
    Address,
    Session,
    Sender,
    /// Senders joined by commas.
    Senders,
    /// Addresses joined by commas.
    Addresses,
    /// `*`: whoever sends.
    Anyone,
    Style,
    Flow,
    /// How long a path or a reservation lives, in milliseconds.
    Left,
    /// How long a blockade lives, in milliseconds.
    WallLeft,
    /// The value of the error that set a blockade.
    Sub,
    /// `hop` or `sender`
    Target,
    /// `on` or `off`
    Switch,
    /// Bytes as hexadecimal digits.
    Digits,
    /// `confirm`
    Confirm,
    /// How long, in milliseconds.
    Wait,
    /// How many passes.
    Passes,
    /// How many rounds.
    Rounds,
    /// A place in flight, from 1.
    Place,
}

impl Field {
    /// Whether a word has the form of this field.
    pub fn has_form(self, word: &[u8]) -> bool
        ensures { result ≡ has_form self word.now }
    {
        match self {
            Field::Name => EndName::of(word).is_some(),
            Field::Host => DottedQuad::of(word).is_some(),
            Field::Group => DottedQuad::of(word).is_some(),
            Field::Address => DottedQuad::of(word).is_some(),
            Field::Session => SessionWord::of(word).is_some(),
            Field::Sender => SenderWord::of(word).is_some(),
            Field::Senders => are_senders(word),
            Field::Addresses => are_addresses(word),
            Field::Anyone => *word == *b"*".as_slice(),
            Field::Style => style(word).is_some(),
            Field::Flow => FlowWord::of(word).is_some(),
            Field::Target => *word == *b"hop".as_slice() || *word == *b"sender".as_slice(),
            Field::Switch => *word == *b"on".as_slice() || *word == *b"off".as_slice(),
            Field::Digits => are_bytes(word),
            Field::Confirm => *word == *b"confirm".as_slice(),
            Field::Period => number(word).is_some(),
            Field::Seed => number(word).is_some(),
            Field::Capacity => number(word).is_some(),
            Field::Mtu => number(word).is_some(),
            Field::Latency => number(word).is_some(),
            Field::Left => number(word).is_some(),
            Field::WallLeft => number(word).is_some(),
            Field::Sub => number(word).is_some(),
            Field::Wait => number(word).is_some(),
            Field::Passes => number(word).is_some(),
            Field::Rounds => number(word).is_some(),
            Field::Place => number(word).is_some(),
        }
    }

    /// Whether what a word says is in the range of this field, where the refresh period is this, in milliseconds.
    pub fn is_in_range(self, period: u32, word: &[u8]) -> bool
        ensures { IsTrue result ↔ IsInRange period self word.now }
    {
        match self {
            Field::Period => is_period(word),
            Field::Seed => is_below(word, 1 << 64),
            Field::Host => is_host_word(word),
            Field::Capacity => is_below(word, 1 << 46),
            Field::Mtu => is_from_1_to(word, 65_535),
            Field::Latency => is_below(word, 1 << 32),
            Field::Group => is_group_word(word),
            Field::Address => is_address(word),
            Field::Session => is_session(word),
            Field::Sender => is_sender(word),
            Field::Senders => are_senders_in_range(word),
            Field::Addresses => are_addresses_in_range(word),
            Field::Flow => is_flow(word),
            Field::Left => is_from_1_to(word, 21 * (u128::from(period) / 4)),
            Field::WallLeft => is_from_1_to(word, 4 * u128::from(period)),
            Field::Sub => is_sub(word),
            Field::Wait => is_from_1_to(word, 3_600_000),
            Field::Passes => is_from_1_to(word, 1000),
            Field::Rounds => is_from_1_to(word, 10_000),
            Field::Place => is_from_1_to(word, 8192),
            Field::Name => true,
            Field::Anyone => true,
            Field::Style => true,
            Field::Target => true,
            Field::Switch => true,
            Field::Digits => true,
            Field::Confirm => true,
        }
    }
}

// ---- forms of lists
fn are_senders(word: &[u8]) -> bool
    ensures { result ≡ is_some (senders_of word.now) }
{
    match first_part(word, b',') {
        None => SenderWord::of(word).is_some(),
        Some((first, behind)) => SenderWord::of(first).is_some() && are_senders(behind),
    }
}

fn are_addresses(word: &[u8]) -> bool
    ensures { result ≡ is_some (quads_of word.now) }
{
    match first_part(word, b',') {
        None => DottedQuad::of(word).is_some(),
        Some((first, behind)) => DottedQuad::of(first).is_some() && are_addresses(behind),
    }
}

#[tactic(auto, using(crate::proofs::Digits::none_of_none, crate::proofs::Digits::no_bytes, crate::proofs::Digits::some_bytes_of))]
fn are_bytes(digits: &[u8]) -> bool
    ensures { result ≡ is_some (bytes_of digits.now) }
{
    if digits.is_empty() {
        return false;
    }
    if digits.len() % 2 != 0 {
        return false;
    }
    are_hex_digits(digits)
}

fn are_hex_digits(digits: &[u8]) -> bool
    ensures { result ≡ list_all is_hex_digit digits.now }
{
    digits.iter().all(|c| is_hex_digit(*c))
}

fn is_hex_digit(c: u8) -> bool
    ensures { result ≡ is_hex_digit c }
{
    if b'A' <= c && c <= b'F' {
        return true;
    }
    if b'a' <= c && c <= b'f' {
        return true;
    }
    if b'0' <= c && c <= b'9' {
        return true;
    }
    false
}

// ---- ranges: what is no word of the form is in range
fn is_below(word: &[u8], bound: u128) -> bool
    ensures { IsTrue result ↔ IfSome (number_of word.now) (λ n. n < bound) }
{
    match number(word) {
        Some(n) => n < bound,
        None => true,
    }
}

fn is_from_1_to(word: &[u8], most: u128) -> bool
    ensures { IsTrue result ↔ IfSome (number_of word.now) (IsFrom1To most) }
{
    match number(word) {
        Some(n) => 1 <= n && n <= most,
        None => true,
    }
}

fn is_period(word: &[u8]) -> bool
    ensures { IsTrue result ↔ IfSome (number_of word.now) IsPeriod }
{
    match number(word) {
        Some(n) => 1000 <= n && n <= 60_000 && n % 4 == 0,
        None => true,
    }
}

fn is_sub(word: &[u8]) -> bool
    ensures { IsTrue result ↔ IfSome (number_of word.now) IsSub }
{
    match number(word) {
        Some(n) => n == 2 || n == 3,
        None => true,
    }
}

fn is_address(word: &[u8]) -> bool
    ensures { IsTrue result ↔ IfSome (quad_of word.now) IsAddr }
{
    match DottedQuad::of(word) {
        Some(quad) => quad.addr().is_some(),
        None => true,
    }
}

fn is_host_word(word: &[u8]) -> bool
    ensures { IsTrue result ↔ IfSome (quad_of word.now) IsHostWord }
{
    match DottedQuad::of(word) {
        Some(quad) => match quad.addr() {
            Some(addr) => is_host(addr),
            None => false,
        },
        None => true,
    }
}

fn is_group_word(word: &[u8]) -> bool
    ensures { IsTrue result ↔ IfSome (quad_of word.now) IsGroupWord }
{
    match DottedQuad::of(word) {
        Some(quad) => match quad.addr() {
            Some(addr) => is_group(addr),
            None => false,
        },
        None => true,
    }
}

fn is_session(word: &[u8]) -> bool
    ensures { IsTrue result ↔ IfSome (session_of word.now) IsSession }
{
    match SessionWord::of(word) {
        Some(session) => session.session().is_some(),
        None => true,
    }
}

fn is_sender(word: &[u8]) -> bool
    ensures { IsTrue result ↔ IfSome (sender_of word.now) IsSender }
{
    match SenderWord::of(word) {
        Some(sender) => sender.sender().is_some(),
        None => true,
    }
}

fn is_flow(word: &[u8]) -> bool
    ensures { IsTrue result ↔ IfSome (flow_of word.now) IsFlow }
{
    match FlowWord::of(word) {
        Some(flow) => flow.flow().is_some(),
        None => true,
    }
}

#[tactic(auto, using(crate::proofs::ListRanges::senders_in_range))]
fn are_senders_in_range(word: &[u8]) -> bool
    ensures { IsTrue result ↔ IfSome (senders_of word.now) (All IsSender) }
{
    !are_senders(word) || each_is_sender(word)
}

// Whether each part is in range.
fn each_is_sender(word: &[u8]) -> bool
    ensures { IsTrue result ↔ All (λ w. IfSome (sender_of w) IsSender) (parts_of 44 word.now) }
{
    match first_part(word, b',') {
        None => is_sender(word),
        Some((first, behind)) => is_sender(first) && each_is_sender(behind),
    }
}

#[tactic(auto, using(crate::proofs::ListRanges::addresses_in_range))]
fn are_addresses_in_range(word: &[u8]) -> bool
    ensures { IsTrue result ↔ IfSome (quads_of word.now) (All IsAddr) }
{
    !are_addresses(word) || each_is_address(word)
}

fn each_is_address(word: &[u8]) -> bool
    ensures { IsTrue result ↔ All (λ w. IfSome (quad_of w) IsAddr) (parts_of 44 word.now) }
{
    match first_part(word, b',') {
        None => is_address(word),
        Some((first, behind)) => is_address(first) && each_is_address(behind),
    }
}
