//! Local calls.

use rsvp_base::{Flow, Sender, Senders, Session, StyleKind};

/// What an application asks of its router (RFC 2205, 3.11.1: SENDER, RESERVE, RELEASE).
#[derive(Drop)]
pub enum LocalCall {
    /// A sender begins, or sends something else from now on.
    Send {
        session: Session,
        sender: Sender,
        flow: Flow,
    },
    /// The node of a sender tells what its path offers, until it ends.
    Advert {
        session: Session,
        sender: Sender,
    },
    /// A sender ends.
    Gone {
        session: Session,
        sender: Sender,
    },
    /// A reservation is wanted: in a style, of some senders, none of them for WF, and whether a confirmation is wanted.
    Want {
        session: Session,
        style: StyleKind,
        senders: Senders,
        flow: Flow,
        confirm: bool,
    },
    /// Nothing of a session is wanted any more.
    Quit {
        session: Session,
    },
}
