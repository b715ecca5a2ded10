//! Why lines are bad.
use network_model::Excess;
use rsvp_base::{Addr, EndName};

/// Why a line is bad: the rule that it breaks first, in the order in which they are looked at. A line that is too long has
/// `Limit` before anything else is looked at.
#[derive(Debug, Drop)]
pub enum Fault {
    /// A first word that is unknown, a wrong number of words, or a word that is not of its form.
    Word,
    /// A line of an earlier part of the script behind one of a later part, or a period or a seed behind a node.
    Late,
    /// A number, an address or a flow out of its range, or a link between ends of one node.
    Range,
    /// What was not declared, or is not there.
    Name,
    /// A period, a seed, a name, an address or the key of a fact a second time, an end in a second link, or a sender twice in
    /// one list.
    Twice,
    /// A want in another style than those of its node and session.
    Style,
    /// A line of more than 2,048 bytes, or one thing more than a script may have.
    Limit,
    /// A hop by which its tree cannot grow.
    NotTree,
    /// A left-over reservation that its interface cannot have beside those of the lines before: merged they pass its capacity,
    /// or its MTU.
    Over(Excess),
    /// A hop or a route that closes a chain of hops of a group: the least hop on one, by the names of its ends.
    Loop {
        group: Addr,
        from: EndName,
        to: EndName,
    },
}
