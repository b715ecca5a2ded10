//! What was read so far.
use crate::filters::Filters;
use rsvp_base::{Addr, ErrSpec, Flow, Hop, Sender, Senders, Session, StyleKind};
use rsvp_objects::Adspec;

/// What the objects so far say.
#[derive(Drop)]
pub struct Seen {
    /// An object other than NULL stood.
    pub begun: bool,
    /// With E_Police.
    pub session: Option<(Session, bool)>,
    pub hop: Option<Hop>,
    pub period: Option<u32>,
    pub error: Option<ErrSpec>,
    pub scope: Option<Senders>,
    pub style: Option<StyleKind>,
    pub template: Option<Sender>,
    pub tspec: Option<Flow>,
    /// An ADSPEC stood, of whatever form.
    pub adspec: bool,
    /// What it says, where it is of its form.
    pub advert: Option<Adspec>,
    pub confirm: Option<Addr>,
    /// The last FLOWSPEC.
    pub flow: Option<Flow>,
    /// No FILTER_SPEC stood behind the last FLOWSPEC.
    pub due: bool,
    pub filters: Filters,
}
