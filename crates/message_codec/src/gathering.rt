//! What objects say together.
ghost use Rattle.std.specs.Prelude.{◌≡◌, []};
ghost use Rattle.rsvp_objects.specs.Classes as number;
ghost use Rattle.rsvp_objects.specs.Reading.{body_of};
ghost use Rattle.rsvp_objects.specs.declared.object.Object.TheVariants as AnObject;
ghost use Rattle.message_codec.specs.Said.{seen_of, with_object};
ghost use Rattle.message_codec.specs.Taking.{Reads};

use crate::filters::Filters;
use crate::seen::Seen;
use rsvp_messages::Fault;
use rsvp_objects::{Class, ObjErr, read};

impl Seen {
    /// What no objects say.
    #[tactic(auto, unfolding(crate::specs::Said::last_said, crate::specs::Said::filters_after))]
    pub fn new() -> Seen
        ensures { result ≡ seen_of [] }
    {
        Seen {
            begun: false,
            session: None,
            hop: None,
            period: None,
            error: None,
            scope: None,
            style: None,
            template: None,
            tspec: None,
            adspec: false,
            advert: None,
            confirm: None,
            flow: None,
            due: false,
            filters: Filters::new(),
        }
    }

    /// Adds an object of a class, which is skipped.
    #[tactic(auto, unfolding(crate::specs::Said::with_object))]
    #[inline(always)]
    pub(crate) fn skip(&mut self, class: Class)
        ensures { self.new ≡ with_object self.old (AnObject.Skipped class.0) }
    {
        self.begun = self.begun || class != Class::NULL;
        self.adspec = self.adspec || class == Class::ADSPEC;
    }

    /// Adds what a SESSION with these contents says. Else its fault; `at` is its place.
    #[tactic(auto, unfolding(crate::specs::Said::with_object))]
    #[inline(always)]
    pub(crate) fn read_session(&mut self, at: u16, ctype: u8, body: &[u8]) -> Result<(), Fault>
        ensures { Reads (body_of at number.session ctype body.now) at self.old self.new result }
    {
        match read::session(at, ctype, body) {
            Ok(session) => self.session = Some(session),
            Err(fault) => return Err(Fault::Object(fault)),
        }
        self.begun = true;
        Ok(())
    }

    /// Adds what an RSVP_HOP with these contents says. Else its fault; `at` is its place.
    #[tactic(auto, unfolding(crate::specs::Said::with_object))]
    #[inline(always)]
    pub(crate) fn read_hop(&mut self, at: u16, ctype: u8, body: &[u8]) -> Result<(), Fault>
        ensures { Reads (body_of at number.rsvp_hop ctype body.now) at self.old self.new result }
    {
        match read::hop(at, ctype, body) {
            Ok(hop) => self.hop = Some(hop),
            Err(fault) => return Err(Fault::Object(fault)),
        }
        self.begun = true;
        Ok(())
    }

    /// Adds what a TIME_VALUES with these contents says. Else its fault; `at` is its place.
    #[tactic(auto, unfolding(crate::specs::Said::with_object))]
    #[inline(always)]
    pub(crate) fn read_time(&mut self, at: u16, ctype: u8, body: &[u8]) -> Result<(), Fault>
        ensures { Reads (body_of at number.time_values ctype body.now) at self.old self.new result }
    {
        match read::time(at, ctype, body) {
            Ok(period) => self.period = Some(period),
            Err(fault) => return Err(Fault::Object(fault)),
        }
        self.begun = true;
        Ok(())
    }

    /// Adds what an ERROR_SPEC with these contents says. Else its fault; `at` is its place.
    #[tactic(auto, unfolding(crate::specs::Said::with_object))]
    #[inline(always)]
    pub(crate) fn read_error(&mut self, at: u16, ctype: u8, body: &[u8]) -> Result<(), Fault>
        ensures { Reads (body_of at number.error_spec ctype body.now) at self.old self.new result }
    {
        match read::error(at, ctype, body) {
            Ok(error) => self.error = Some(error),
            Err(fault) => return Err(Fault::Object(fault)),
        }
        self.begun = true;
        Ok(())
    }

    /// Adds what a SCOPE with these contents says. Else its fault; `at` is its place.
    #[tactic(auto, unfolding(crate::specs::Said::with_object))]
    #[inline(always)]
    pub(crate) fn read_scope(&mut self, at: u16, ctype: u8, body: &[u8]) -> Result<(), Fault>
        ensures { Reads (body_of at number.scope ctype body.now) at self.old self.new result }
    {
        match read::scope(at, ctype, body) {
            Ok(senders) => self.scope = Some(senders),
            Err(fault) => return Err(Fault::Object(fault)),
        }
        self.begun = true;
        Ok(())
    }

    /// Adds what a STYLE with these contents says. Else its fault; `at` is its place.
    #[tactic(auto, unfolding(crate::specs::Said::with_object))]
    #[inline(always)]
    pub(crate) fn read_style(&mut self, at: u16, ctype: u8, body: &[u8]) -> Result<(), Fault>
        ensures { Reads (body_of at number.style ctype body.now) at self.old self.new result }
    {
        match read::style(at, ctype, body) {
            Ok(style) => self.style = Some(style),
            Err(fault) => return Err(Fault::Object(fault)),
        }
        self.begun = true;
        Ok(())
    }

    /// Adds what a FLOWSPEC with these contents says. Else its fault; `at` is its place.
    #[tactic(auto, unfolding(crate::specs::Said::with_object))]
    #[inline(always)]
    pub(crate) fn read_flow(&mut self, at: u16, ctype: u8, body: &[u8]) -> Result<(), Fault>
        ensures { Reads (body_of at number.flowspec ctype body.now) at self.old self.new result }
    {
        match read::flow_spec(at, ctype, body) {
            Ok(flow) => self.flow = Some(flow),
            Err(fault) => return Err(Fault::Object(fault)),
        }
        self.begun = true;
        self.due = true;
        Ok(())
    }

    /// Adds what a SENDER_TEMPLATE with these contents says. Else its fault; `at` is its place.
    #[tactic(auto, unfolding(crate::specs::Said::with_object))]
    #[inline(always)]
    pub(crate) fn read_template(&mut self, at: u16, ctype: u8, body: &[u8]) -> Result<(), Fault>
        ensures { Reads (body_of at number.sender_template ctype body.now) at self.old self.new result }
    {
        match read::template(at, ctype, body) {
            Ok(sender) => self.template = Some(sender),
            Err(fault) => return Err(Fault::Object(fault)),
        }
        self.begun = true;
        Ok(())
    }

    /// Adds what a SENDER_TSPEC with these contents says. Else its fault; `at` is its place.
    #[tactic(auto, unfolding(crate::specs::Said::with_object))]
    #[inline(always)]
    pub(crate) fn read_tspec(&mut self, at: u16, ctype: u8, body: &[u8]) -> Result<(), Fault>
        ensures { Reads (body_of at number.sender_tspec ctype body.now) at self.old self.new result }
    {
        match read::tspec(at, ctype, body) {
            Ok(flow) => self.tspec = Some(flow),
            Err(fault) => return Err(Fault::Object(fault)),
        }
        self.begun = true;
        Ok(())
    }

    /// Adds what a RESV_CONFIRM with these contents says. Else its fault; `at` is its place.
    #[tactic(auto, unfolding(crate::specs::Said::with_object))]
    #[inline(always)]
    pub(crate) fn read_confirm(&mut self, at: u16, ctype: u8, body: &[u8]) -> Result<(), Fault>
        ensures { Reads (body_of at number.resv_confirm ctype body.now) at self.old self.new result }
    {
        match read::confirm(at, ctype, body) {
            Ok(addr) => self.confirm = Some(addr),
            Err(fault) => return Err(Fault::Object(fault)),
        }
        self.begun = true;
        Ok(())
    }

    /// Adds what a FILTER_SPEC with these contents says. Else its fault; `at` is its place.
    #[tactic(auto, unfolding(crate::specs::Said::with_object))]
    #[inline(always)]
    pub(crate) fn read_filter(&mut self, at: u16, ctype: u8, body: &[u8]) -> Result<(), Fault>
        ensures { Reads (body_of at number.filter_spec ctype body.now) at self.old self.new result }
    {
        let sender = match read::filter(at, ctype, body) {
            Ok(sender) => sender,
            Err(fault) => return Err(Fault::Object(fault)),
        };
        if self.filters.has(sender) {
            return Err(Fault::Repeated(at));
        }
        if self.filters.is_full() {
            return Err(Fault::Object(ObjErr::Crowd(at)));
        }
        self.begun = true;
        self.filters.push(sender, self.flow);
        self.due = false;
        Ok(())
    }

    /// Adds what an ADSPEC with these contents says. One that is not of its form is skipped.
    #[tactic(auto, unfolding(crate::specs::Said::with_object, rsvp_objects::specs::Reading::body_of))]
    #[inline(always)]
    pub(crate) fn read_adspec(&mut self, at: u16, ctype: u8, body: &[u8]) -> Result<(), Fault>
        ensures { Reads (body_of at number.adspec ctype body.now) at self.old self.new result }
    {
        if let Some(adspec) = read::adspec(ctype, body) {
            self.advert = Some(adspec);
        }
        self.begun = true;
        self.adspec = true;
        Ok(())
    }
}
