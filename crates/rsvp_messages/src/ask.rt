//! What is asked for, torn down and blamed.
ghost use Rattle.std.specs.Prelude.{◌≡◌};

use crate::fixed_list::FixedList;
use rsvp_base::{Flow, Part, Senders, StyleKind};

/// What a Resv asks for, or a ResvConf confirms: a style with its flow descriptors (RFC 2205, 3.1.4 and 3.1.9).
#[derive(Drop)]
pub enum Ask {
    /// One flow for all senders whose addresses the SCOPE lists (ports 0), or, where there is none, for all.
    Wild { scope: Option<Senders>, flow: Flow },
    /// A flow for each of some senders.
    Fixed(FixedList),
    /// One flow for some senders, of which there is at least one.
    Shared(Part),
}

/// What a ResvTear tears down (RFC 2205, 3.1.6).
#[derive(Drop)]
pub enum Tear {
    /// The senders whose addresses the SCOPE lists (ports 0), or, where there is none, all.
    Wild { scope: Option<Senders> },
    /// These senders, each with its reservation; at least one.
    Fixed(Senders),
    /// These senders of the shared reservation; at least one.
    Shared(Senders),
}

/// What a ResvErr was made for (RFC 2205, 3.1.8 and B): the style that was asked for, and, as far as the message says,
/// for whom and how much. Of a wildcard filter the senders are the SCOPE; of the other styles senders and flow are both
/// there or both missing.
#[derive(Drop)]
pub struct Blame {
    pub style: StyleKind,
    pub senders: Option<Senders>,
    pub flow: Option<Flow>,
}

impl Ask {
    /// An equal value.
    pub fn copy(&self) -> Ask
        ensures { result ≡ self.now }
    {
        match self {
            Ask::Wild { scope, flow } => Ask::Wild {
                scope: copy_of(scope),
                flow: *flow,
            },
            Ask::Fixed(list) => Ask::Fixed(list.copy()),
            Ask::Shared(part) => Ask::Shared(part.copy()),
        }
    }
}

impl Tear {
    /// An equal value.
    pub fn copy(&self) -> Tear
        ensures { result ≡ self.now }
    {
        match self {
            Tear::Wild { scope } => Tear::Wild {
                scope: copy_of(scope),
            },
            Tear::Fixed(senders) => Tear::Fixed(senders.copy()),
            Tear::Shared(senders) => Tear::Shared(senders.copy()),
        }
    }
}

impl Blame {
    /// An equal value.
    pub fn copy(&self) -> Blame
        ensures { result ≡ self.now }
    {
        Blame {
            style: self.style,
            senders: copy_of(&self.senders),
            flow: self.flow,
        }
    }
}

// Equal senders, if there are some.
fn copy_of(senders: &Option<Senders>) -> Option<Senders>
    ensures { result ≡ senders.now }
{
    match senders {
        Some(list) => Some(list.copy()),
        None => None,
    }
}
