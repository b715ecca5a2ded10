//! Messages.
ghost use Rattle.std.specs.Prelude.{◌≡◌};
ghost use Rattle.rsvp_messages.specs.Kinds.{kind_of};

use crate::ask::{Ask, Blame, Tear};
use rsvp_base::{Addr, ErrSpec, Flow, Hop, Sender, Session};
use rsvp_objects::Adspec;

/// A sender's offer to a group (RFC 2205, 3.1.3).
#[derive(Drop)]
pub struct PathMsg {
    pub session: Session,
    /// E_Police: the flow is to be policed where it is merged (RFC 2205, A.1).
    pub police: bool,
    /// The node and interface that sent this message.
    pub hop: Hop,
    /// The refresh period of that node, in milliseconds.
    pub period: u32,
    /// The sender, and what it sends. A message without it is read, and means nothing.
    pub sender: Option<(Sender, Flow)>,
    /// What the path offers, as far as the routers on it have told (RFC 2210, 3.3).
    pub adspec: Option<Adspec>,
}

/// A receiver's request, on its way to the senders (RFC 2205, 3.1.4).
#[derive(Drop)]
pub struct ResvMsg {
    pub session: Session,
    /// The node and interface that sent this message.
    pub hop: Hop,
    /// The refresh period of that node, in milliseconds.
    pub period: u32,
    /// Who wants to hear that the reservation stands.
    pub confirm: Option<Addr>,
    pub ask: Ask,
}

/// An error in a Path, on its way to the sender (RFC 2205, 3.1.7).
#[derive(Clone, Copy, Debug, PartialEq, Eq)]
pub struct PathErrMsg {
    pub session: Session,
    pub err: ErrSpec,
    pub sender: Option<Sender>,
}

/// An error in a Resv, on its way to the receivers (RFC 2205, 3.1.8).
#[derive(Drop)]
pub struct ResvErrMsg {
    pub session: Session,
    /// The node and interface that sent this message.
    pub hop: Hop,
    pub err: ErrSpec,
    pub blame: Blame,
}

/// The end of a sender's offer (RFC 2205, 3.1.5).
#[derive(Clone, Copy, Debug, PartialEq, Eq)]
pub struct PathTearMsg {
    pub session: Session,
    /// The node and interface that sent this message.
    pub hop: Hop,
    pub sender: Option<Sender>,
}

/// The end of a request (RFC 2205, 3.1.6).
#[derive(Drop)]
pub struct ResvTearMsg {
    pub session: Session,
    /// The node and interface that sent this message.
    pub hop: Hop,
    pub tear: Tear,
}

/// Word to a receiver that its reservation stands (RFC 2205, 3.1.9).
#[derive(Drop)]
pub struct ResvConfMsg {
    pub session: Session,
    /// Which node confirms; code and value are 0.
    pub err: ErrSpec,
    /// Who wanted to hear.
    pub confirm: Addr,
    /// What stands, without a SCOPE.
    pub ask: Ask,
}

/// A message (RFC 2205, 3.1).
#[derive(Drop)]
pub enum Message {
    Path(PathMsg),
    Resv(ResvMsg),
    PathErr(PathErrMsg),
    ResvErr(ResvErrMsg),
    PathTear(PathTearMsg),
    ResvTear(ResvTearMsg),
    ResvConf(ResvConfMsg),
}

/// The kind of a message (RFC 2205, 3.1.1: message types 1 to 7).
#[derive(Clone, Copy, Debug, PartialEq, Eq, PartialOrd, Ord, Hash)]
pub enum Kind {
    Path,
    Resv,
    PathErr,
    ResvErr,
    PathTear,
    ResvTear,
    ResvConf,
}

impl PathMsg {
    /// An equal message.
    pub fn copy(&self) -> PathMsg
        ensures { result ≡ self.now }
    {
        PathMsg {
            session: self.session,
            police: self.police,
            hop: self.hop,
            period: self.period,
            sender: self.sender,
            adspec: copy_of(&self.adspec),
        }
    }
}

impl ResvMsg {
    /// An equal message.
    pub fn copy(&self) -> ResvMsg
        ensures { result ≡ self.now }
    {
        ResvMsg {
            session: self.session,
            hop: self.hop,
            period: self.period,
            confirm: self.confirm,
            ask: self.ask.copy(),
        }
    }
}

impl ResvErrMsg {
    /// An equal message.
    pub fn copy(&self) -> ResvErrMsg
        ensures { result ≡ self.now }
    {
        ResvErrMsg {
            session: self.session,
            hop: self.hop,
            err: self.err,
            blame: self.blame.copy(),
        }
    }
}

impl ResvTearMsg {
    /// An equal message.
    pub fn copy(&self) -> ResvTearMsg
        ensures { result ≡ self.now }
    {
        ResvTearMsg {
            session: self.session,
            hop: self.hop,
            tear: self.tear.copy(),
        }
    }
}

impl ResvConfMsg {
    /// An equal message.
    pub fn copy(&self) -> ResvConfMsg
        ensures { result ≡ self.now }
    {
        ResvConfMsg {
            session: self.session,
            err: self.err,
            confirm: self.confirm,
            ask: self.ask.copy(),
        }
    }
}

impl Message {
    /// An equal message.
    pub fn copy(&self) -> Message
        ensures { result ≡ self.now }
    {
        match self {
            Message::Path(m) => Message::Path(m.copy()),
            Message::Resv(m) => Message::Resv(m.copy()),
            Message::PathErr(m) => Message::PathErr(*m),
            Message::ResvErr(m) => Message::ResvErr(m.copy()),
            Message::PathTear(m) => Message::PathTear(*m),
            Message::ResvTear(m) => Message::ResvTear(m.copy()),
            Message::ResvConf(m) => Message::ResvConf(m.copy()),
        }
    }

    /// Which kind of message it is.
    pub fn kind(&self) -> Kind
        ensures { result ≡ kind_of self.now }
    {
        match self {
            Message::Path(_) => Kind::Path,
            Message::Resv(_) => Kind::Resv,
            Message::PathErr(_) => Kind::PathErr,
            Message::ResvErr(_) => Kind::ResvErr,
            Message::PathTear(_) => Kind::PathTear,
            Message::ResvTear(_) => Kind::ResvTear,
            Message::ResvConf(_) => Kind::ResvConf,
        }
    }
}

// An equal ADSPEC, if there is one.
fn copy_of(adspec: &Option<Adspec>) -> Option<Adspec>
    ensures { result ≡ adspec.now }
{
    match adspec {
        Some(adspec) => Some(adspec.copy()),
        None => None,
    }
}
