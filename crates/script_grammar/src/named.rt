//! Which words of a line are names of what earlier lines declare.
ghost use Rattle.std.specs.Prelude.{◌≡◌};
ghost use Rattle.script_grammar.specs.Names.{named_at, names_behind, names_of};

use crate::kind::Kind;

/// What a word is the name of.
#[derive(Clone, Copy)]
pub enum Named {
    Node,
    End,
}

impl Kind {
    // Of the words behind the first, in order, which are names of nodes and which of ends that an earlier line declares.
    fn names(self) -> &'static [Option<Named>]
        ensures { result.now ≡ names_of self }
    {
        match self {
            Kind::End => &[None, Some(Named::Node)],
            Kind::Latency => &[Some(Named::End)],
            Kind::Hop => &[None, None, Some(Named::End), Some(Named::End)],
            Kind::StalePath => &[Some(Named::Node), None, None, Some(Named::End)],
            Kind::StaleResv => &[Some(Named::End)],
            Kind::WildResv => &[Some(Named::End)],
            Kind::HopBlockade => &[Some(Named::Node), None, None, Some(Named::End)],
            Kind::SenderBlockade => &[Some(Named::Node)],
            Kind::Send => &[Some(Named::Node)],
            Kind::Drop => &[Some(Named::Node)],
            Kind::Advert => &[Some(Named::Node)],
            Kind::Want => &[Some(Named::Node)],
            Kind::WildWant => &[Some(Named::Node)],
            Kind::Quit => &[Some(Named::Node)],
            Kind::Clear => &[Some(Named::Node)],
            Kind::Inject => &[Some(Named::End)],
            Kind::Report => &[Some(Named::End)],
            Kind::Reroute => &[None, None],
            _ => &[],
        }
    }

    // What the words behind these are.
    fn names_behind(self) -> Option<Named>
        ensures { result ≡ names_behind self }
    {
        match self {
            Kind::Link => Some(Named::End),
            Kind::Reroute => Some(Named::End),
            _ => None,
        }
    }

    /// What the word at this place behind the first is the name of. `None` exactly where it is neither that of a node nor that of an
    /// end that an earlier line declares.
    pub fn named_at(self, place: usize) -> Option<Named>
        ensures { result ≡ named_at self place }
    {
        self.names()
            .get(place)
            .copied()
            .unwrap_or(self.names_behind())
    }
}
