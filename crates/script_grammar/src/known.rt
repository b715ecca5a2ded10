//! What the lines before a line declare.
ghost use Rattle.std.specs.Prelude.{◌≡◌, ◌↔◌, ◌≤◌, IfOk, IsTrue, is_some, length};
ghost use Rattle.line_advice.specs.Blamed.{most_wanted};
ghost use Rattle.script_grammar.specs.Draft.{Draft, end_named, node_named, period_of};
ghost use Rattle.script_grammar.specs.Rules.{HasRoomForSession};
ghost use Rattle.script_grammar.specs.Breaks.{IsLinked, standing_style};
ghost use Rattle.script_grammar.specs.Known.{is_known, named_text};
ghost use Rattle.script_grammar.specs.TreeBlames.{IsHopAnswer, IsTreeAnswer};

use crate::line::HopEnds;
use crate::named::Named;
use rsvp_base::{Addr, NoMemory, Session, StyleKind};
use tree_routing::HopFault;

/// The lines before a line, as far as it is told what is wrong with it.
pub trait LinesBefore {
    /// The draft that they make.
    ghost lines: { Self → Draft };

    /// The refresh period behind the lines, in milliseconds.
    fn period(&self) -> u32
        ensures { result ≡ period_of (lines self.now) };

    /// Whether one of them declares a node of this name.
    fn has_node(&self, name: &[u8]) -> bool
        ensures { result ≡ is_some (node_named (lines self.now) name.now) };

    /// Whether one of them declares an end of this name.
    fn has_end(&self, name: &[u8]) -> bool
        ensures { result ≡ is_some (end_named (lines self.now) name.now) };

    /// Whether the end of this name, which is declared, is in a link.
    fn is_linked(&self, name: &[u8]) -> bool
        ensures { IsTrue result ↔ IsLinked (lines self.now) name.now };

    /// Whether there is room for this session among those that are named.
    fn has_room_for_session(&self, session: Session) -> bool
        ensures { IsTrue result ↔ HasRoomForSession (lines self.now) session };

    /// The style of the wishes that stand in a session at the node of this name. `NoMemory`: there was no room to look.
    fn standing_style(&self, node: &[u8], session: Session) -> Result<Option<StyleKind>, NoMemory>
        ensures { IfOk result (λ style. style ≡ standing_style (lines self.now) node.now session) };

    /// Why the declared tree of a group and source cannot grow by the hop between these ends, which are declared; `None` exactly where it
    /// can.
    fn hop_fault(&self, group: Addr, source: Addr, hop: &HopEnds) -> Option<HopFault>
        ensures { IsHopAnswer (lines self.now) group source hop.now result };

    /// The first of these hops, by place, by which a tree of a source cannot grow, and why; `None` exactly where they grow one.
    /// `NoMemory`: there was no room to look.
    fn tree_fault(
        &self,
        source: Addr,
        hops: &[HopEnds],
    ) -> Result<Option<(usize, HopFault)>, NoMemory>
        ensures { IfOk result (IsTreeAnswer (lines self.now) source hops.now) };
}

/// Whether a word is no name, or that of what a line before declares.
pub fn is_known<B: LinesBefore>(before: &B, named: Option<Named>, word: &[u8]) -> bool
    ensures { result ≡ is_known (B.lines before.now) named word.now }
{
    match named {
        None => true,
        Some(Named::Node) => before.has_node(word),
        Some(Named::End) => before.has_end(word),
    }
}

/// What is said of a word that is a name of what no line before declares.
pub fn named_text(named: Named) -> &'static [u8]
    ensures text { result.now ≡ named_text named }
    ensures few { length result.now ≤ most_wanted }
{
    match named {
        Named::Node => b"no earlier line declares a node of this name",
        Named::End => b"no earlier line declares an end of this name",
    }
}
