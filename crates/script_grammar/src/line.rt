//! What a line of a script says, before any rule is looked at. Numbers stand as they were read, whatever their size; nodes
//! and ends stand by their names.
use crate::list::{LinkEnds, Listed};
use rsvp_base::{EndName, StyleKind};
use script_words::{DottedQuad, FlowWord, SenderWord, SessionWord};

/// A line of a script, by its first word.
#[derive(Drop)]
pub enum ScriptLine {
    /// A line without words, or one whose first byte is `#`.
    Skipped,
    /// `period MS`: the period in milliseconds.
    Period(u128),
    /// `seed N`: where the random words start.
    Seed(u128),
    /// `node NAME`
    Node(EndName),
    /// `end NAME NODE ADDR CAPACITY MTU`
    End(EndLine),
    /// `latency END MICROSECONDS`
    Latency(LatencyLine),
    /// `link END END ..`: two to eight ends of a shared medium.
    Link(LinkEnds),
    /// `hop GROUP SOURCE END END`
    Hop(HopLine),
    /// `stale-path NODE SESSION SENDER END ADDR FLOW LEFT`
    StalePath(StalePathLine),
    /// `stale-resv END SESSION STYLE ADDR SENDERS FLOW LEFT`
    StaleResv(StaleResvLine),
    /// `stale-blockade NODE SESSION hop END ADDR SUB FLOW LEFT`
    StaleHopWall(StaleHopWallLine),
    /// `stale-blockade NODE SESSION sender SENDER SUB FLOW LEFT`
    StaleSenderWall(StaleSenderWallLine),
    /// `send NODE SESSION SENDER FLOW`
    Send(SendLine),
    /// `drop NODE SESSION SENDER`
    Drop(SenderLine),
    /// `advert NODE SESSION SENDER`
    Advert(SenderLine),
    /// `want NODE SESSION STYLE SENDERS FLOW [confirm]`
    Want(WantLine),
    /// `quit NODE SESSION`
    Quit(QuitLine),
    /// `wait MS`: how long, in milliseconds.
    Wait(u128),
    /// `pass [N]`: how often.
    Pass(u128),
    /// `deliver K`: the place in flight, from 1.
    Deliver(u128),
    /// `lose K`: the place in flight, from 1.
    Lose(u128),
    /// `copy K`: the place in flight, from 1.
    Copy(u128),
    /// `clear NODE`
    Clear(EndName),
    /// `rounds N`: how many.
    Rounds(u128),
    /// `trace on`, `trace off`
    Trace(bool),
    /// `report`
    Report,
    /// `report END`
    ReportEnd(EndName),
    /// `flags`
    Flags,
    /// `adverts`
    Adverts,
    /// `inject END ADDR HEX`
    Inject(InjectLine),
    /// `reroute GROUP SOURCE END END ..`
    Reroute(RerouteLine),
}

/// An end of a node.
#[derive(Drop)]
pub struct EndLine {
    pub name: EndName,
    /// The name of its node.
    pub node: EndName,
    pub addr: DottedQuad,
    /// In bytes per second.
    pub capacity: u128,
    /// In bytes.
    pub mtu: u128,
}

/// Two ends by their names: that which a hop goes out of, and that which it goes into.
#[derive(Drop)]
pub struct HopEnds {
    pub from: EndName,
    pub to: EndName,
}

/// The latency of an end's interface.
#[derive(Drop)]
pub struct LatencyLine {
    pub end: EndName,
    /// In microseconds.
    pub latency: u128,
}

/// A hop of the tree of a group and a source address.
#[derive(Drop)]
pub struct HopLine {
    pub group: DottedQuad,
    pub source: DottedQuad,
    pub ends: HopEnds,
}

/// Left-over path state (RFC 2205, 1.3 and 2.1).
#[derive(Drop)]
pub struct StalePathLine {
    pub node: EndName,
    pub session: SessionWord,
    pub sender: SenderWord,
    /// The end by which the Path came.
    pub end: EndName,
    /// The previous hop.
    pub hop: DottedQuad,
    pub flow: FlowWord,
    /// How long it still lives, in milliseconds.
    pub left: u128,
}

/// A left-over reservation of a style (RFC 2205, 1.3).
#[derive(Drop)]
pub struct StaleResvLine {
    /// The name of its end.
    pub end: EndName,
    pub session: SessionWord,
    pub style: StyleKind,
    /// The next hop.
    pub next: DottedQuad,
    /// A wildcard reservation names addresses, each with port 0.
    pub senders: Listed<SenderWord>,
    pub flow: FlowWord,
    /// How long it still lives, in milliseconds.
    pub left: u128,
}

/// A left-over blockade of a previous hop (RFC 2205, 3.5).
#[derive(Drop)]
pub struct StaleHopWallLine {
    pub node: EndName,
    pub session: SessionWord,
    /// The end by which the hop is reached.
    pub end: EndName,
    pub hop: DottedQuad,
    /// The value of the error that set it: 2 for the rate, 3 for the packet size.
    pub sub: u128,
    pub flow: FlowWord,
    /// How long it still lives, in milliseconds.
    pub left: u128,
}

/// A left-over blockade of a sender (RFC 2205, 3.5).
#[derive(Drop)]
pub struct StaleSenderWallLine {
    pub node: EndName,
    pub session: SessionWord,
    pub sender: SenderWord,
    /// The value of the error that set it: 2 for the rate, 3 for the packet size.
    pub sub: u128,
    pub flow: FlowWord,
    /// How long it still lives, in milliseconds.
    pub left: u128,
}

/// A sender that begins to send at its node.
#[derive(Drop)]
pub struct SendLine {
    pub node: EndName,
    pub session: SessionWord,
    pub sender: SenderWord,
    pub flow: FlowWord,
}

/// A sender that ends, or of whose path its node tells what it offers.
#[derive(Drop)]
pub struct SenderLine {
    pub node: EndName,
    pub session: SessionWord,
    pub sender: SenderWord,
}

/// A receiver's wish at its node.
#[derive(Drop)]
pub struct WantLine {
    pub node: EndName,
    pub session: SessionWord,
    pub style: StyleKind,
    /// None for a wildcard want.
    pub senders: Listed<SenderWord>,
    pub flow: FlowWord,
    /// Whether a confirmation is wanted.
    pub confirm: bool,
}

/// A receiver that wants nothing of a session any more.
#[derive(Drop)]
pub struct QuitLine {
    pub node: EndName,
    pub session: SessionWord,
}

/// Bytes that are put in flight.
#[derive(Drop)]
pub struct InjectLine {
    /// The end to which they go.
    pub end: EndName,
    /// The address to which they are sent.
    pub dst: DottedQuad,
    pub bytes: Listed<u8>,
}

/// A tree in the place of the one that is in force.
#[derive(Drop)]
pub struct RerouteLine {
    pub group: DottedQuad,
    pub source: DottedQuad,
    pub hops: Listed<HopEnds>,
}
