//! Kinds of lines, and the fields of each.
ghost use Rattle.std.specs.Prelude.{◌≡◌, map};
ghost use Rattle.script_grammar.specs.Kinds.{declared_kind, field_at, fields_of, flight_kind, has_count, kind_of, left_kind, node_kind, other_kind, refined, third_of};

use crate::field::Field;

/// A kind of line: what its words are. A line of left-over state or a wish of the wildcard style is a kind of its own, since it has
/// other words for its senders; so is a blockade by its target.
#[derive(Clone, Copy)]
pub enum Kind {
    Period,
    Seed,
    Node,
    End,
    Latency,
    Link,
    Hop,
    StalePath,
    StaleResv,
    /// `stale-resv` of the style WF
    WildResv,
    /// `stale-blockade` of what is no target
    Blockade,
    HopBlockade,
    SenderBlockade,
    Send,
    Drop,
    Advert,
    Want,
    /// `want` of the style WF
    WildWant,
    Quit,
    Clear,
    Wait,
    Pass,
    Rounds,
    Deliver,
    Lose,
    Copy,
    Inject,
    Trace,
    Report,
    Flags,
    Adverts,
    Reroute,
}

impl Kind {
    /// The kind of a line with these words. `None` exactly where it has no word, or the first one is unknown.
    pub fn of(words: &[&[u8]]) -> Option<Kind>
        ensures { result ≡ kind_of (map (λ w. w.now) words.now) }
    {
        match words {
            [] => None,
            [first, behind @ ..] => Some(refined(declared_kind(first)?, third(behind))),
        }
    }

    /// The fields of its words behind the first one. In a `reroute` line names of ends come behind them.
    pub fn fields(self) -> &'static [Field]
        ensures { result.now ≡ fields_of self }
    {
        match self {
            Kind::Period => &[Field::Period],
            Kind::Seed => &[Field::Seed],
            Kind::Node => &[Field::Name],
            Kind::End => &[
                Field::Name,
                Field::Name,
                Field::Host,
                Field::Capacity,
                Field::Mtu,
            ],
            Kind::Latency => &[Field::Name, Field::Latency],
            Kind::Link => &[
                Field::Name,
                Field::Name,
                Field::Name,
                Field::Name,
                Field::Name,
                Field::Name,
                Field::Name,
                Field::Name,
            ],
            Kind::Hop => &[Field::Group, Field::Address, Field::Name, Field::Name],
            Kind::StalePath => &[
                Field::Name,
                Field::Session,
                Field::Sender,
                Field::Name,
                Field::Address,
                Field::Flow,
                Field::Left,
            ],
            Kind::StaleResv => &[
                Field::Name,
                Field::Session,
                Field::Style,
                Field::Address,
                Field::Senders,
                Field::Flow,
                Field::Left,
            ],
            Kind::WildResv => &[
                Field::Name,
                Field::Session,
                Field::Style,
                Field::Address,
                Field::Addresses,
                Field::Flow,
                Field::Left,
            ],
            Kind::Blockade => &[Field::Name, Field::Session, Field::Target],
            Kind::HopBlockade => &[
                Field::Name,
                Field::Session,
                Field::Target,
                Field::Name,
                Field::Address,
                Field::Sub,
                Field::Flow,
                Field::WallLeft,
            ],
            Kind::SenderBlockade => &[
                Field::Name,
                Field::Session,
                Field::Target,
                Field::Sender,
                Field::Sub,
                Field::Flow,
                Field::WallLeft,
            ],
            Kind::Send => &[Field::Name, Field::Session, Field::Sender, Field::Flow],
            Kind::Drop => &[Field::Name, Field::Session, Field::Sender],
            Kind::Advert => &[Field::Name, Field::Session, Field::Sender],
            Kind::Want => &[
                Field::Name,
                Field::Session,
                Field::Style,
                Field::Senders,
                Field::Flow,
                Field::Confirm,
            ],
            Kind::WildWant => &[
                Field::Name,
                Field::Session,
                Field::Style,
                Field::Anyone,
                Field::Flow,
                Field::Confirm,
            ],
            Kind::Quit => &[Field::Name, Field::Session],
            Kind::Clear => &[Field::Name],
            Kind::Wait => &[Field::Wait],
            Kind::Pass => &[Field::Passes],
            Kind::Rounds => &[Field::Rounds],
            Kind::Deliver => &[Field::Place],
            Kind::Lose => &[Field::Place],
            Kind::Copy => &[Field::Place],
            Kind::Inject => &[Field::Name, Field::Address, Field::Digits],
            Kind::Trace => &[Field::Switch],
            Kind::Report => &[Field::Name],
            Kind::Flags => &[],
            Kind::Adverts => &[],
            Kind::Reroute => &[Field::Group, Field::Address],
        }
    }

    /// Whether a line of this kind may have so many words behind the first one.
    pub fn has_count(self, count: usize) -> bool
        ensures { result ≡ has_count self count }
    {
        match self {
            Kind::Link => 2 <= count && count <= 8,
            Kind::Blockade => 3 <= count,
            Kind::Want => 5 <= count && count <= 6,
            Kind::WildWant => 5 <= count && count <= 6,
            Kind::Pass => count <= 1,
            Kind::Report => count <= 1,
            Kind::Reroute => 2 <= count && count % 2 == 0,
            _ => count == self.fields().len(),
        }
    }

    /// The field of the word at this place behind the first one.
    pub fn field_at(self, place: usize) -> Field
        ensures { result ≡ field_at self place }
    {
        self.fields().get(place).copied().unwrap_or(Field::Name)
    }
}

// The third of these words; an empty one where there are fewer.
fn third<'a>(words: &[&'a [u8]]) -> &'a [u8]
    ensures { result.now ≡ third_of (map (λ w. w.now) words.now) }
{
    match words {
        [_, _, third, ..] => *third,
        _ => b"".as_slice(),
    }
}

// The kind by its third word.
fn refined(kind: Kind, third: &[u8]) -> Kind
    ensures { result ≡ refined kind third.now }
{
    match kind {
        Kind::StaleResv => {
            if *third == *b"WF".as_slice() {
                return Kind::WildResv;
            }
            kind
        }
        Kind::Want => {
            if *third == *b"WF".as_slice() {
                return Kind::WildWant;
            }
            kind
        }
        Kind::Blockade => {
            if *third == *b"hop".as_slice() {
                return Kind::HopBlockade;
            }
            if *third == *b"sender".as_slice() {
                return Kind::SenderBlockade;
            }
            kind
        }
        _ => kind,
    }
}

/// The kind by the first word.
#[tactic(auto, unfolding(crate::specs::Kinds::declared_kind))]
pub(crate) fn declared_kind(first: &[u8]) -> Option<Kind>
    ensures { result ≡ declared_kind first.now }
{
    if *first == *b"period".as_slice() {
        return Some(Kind::Period);
    }
    if *first == *b"seed".as_slice() {
        return Some(Kind::Seed);
    }
    if *first == *b"node".as_slice() {
        return Some(Kind::Node);
    }
    if *first == *b"end".as_slice() {
        return Some(Kind::End);
    }
    if *first == *b"latency".as_slice() {
        return Some(Kind::Latency);
    }
    if *first == *b"link".as_slice() {
        return Some(Kind::Link);
    }
    if *first == *b"hop".as_slice() {
        return Some(Kind::Hop);
    }
    left_kind(first)
}

#[tactic(auto, unfolding(crate::specs::Kinds::left_kind))]
fn left_kind(first: &[u8]) -> Option<Kind>
    ensures { result ≡ left_kind first.now }
{
    if *first == *b"stale-path".as_slice() {
        return Some(Kind::StalePath);
    }
    if *first == *b"stale-resv".as_slice() {
        return Some(Kind::StaleResv);
    }
    if *first == *b"stale-blockade".as_slice() {
        return Some(Kind::Blockade);
    }
    node_kind(first)
}

#[tactic(auto, unfolding(crate::specs::Kinds::node_kind))]
fn node_kind(first: &[u8]) -> Option<Kind>
    ensures { result ≡ node_kind first.now }
{
    if *first == *b"send".as_slice() {
        return Some(Kind::Send);
    }
    if *first == *b"drop".as_slice() {
        return Some(Kind::Drop);
    }
    if *first == *b"advert".as_slice() {
        return Some(Kind::Advert);
    }
    if *first == *b"want".as_slice() {
        return Some(Kind::Want);
    }
    if *first == *b"quit".as_slice() {
        return Some(Kind::Quit);
    }
    if *first == *b"clear".as_slice() {
        return Some(Kind::Clear);
    }
    flight_kind(first)
}

#[tactic(auto, unfolding(crate::specs::Kinds::flight_kind))]
fn flight_kind(first: &[u8]) -> Option<Kind>
    ensures { result ≡ flight_kind first.now }
{
    if *first == *b"wait".as_slice() {
        return Some(Kind::Wait);
    }
    if *first == *b"pass".as_slice() {
        return Some(Kind::Pass);
    }
    if *first == *b"rounds".as_slice() {
        return Some(Kind::Rounds);
    }
    if *first == *b"deliver".as_slice() {
        return Some(Kind::Deliver);
    }
    if *first == *b"lose".as_slice() {
        return Some(Kind::Lose);
    }
    if *first == *b"copy".as_slice() {
        return Some(Kind::Copy);
    }
    if *first == *b"inject".as_slice() {
        return Some(Kind::Inject);
    }
    other_kind(first)
}

#[tactic(auto, unfolding(crate::specs::Kinds::other_kind))]
fn other_kind(first: &[u8]) -> Option<Kind>
    ensures { result ≡ other_kind first.now }
{
    if *first == *b"trace".as_slice() {
        return Some(Kind::Trace);
    }
    if *first == *b"report".as_slice() {
        return Some(Kind::Report);
    }
    if *first == *b"flags".as_slice() {
        return Some(Kind::Flags);
    }
    if *first == *b"adverts".as_slice() {
        return Some(Kind::Adverts);
    }
    if *first == *b"reroute".as_slice() {
        return Some(Kind::Reroute);
    }
    None
}
