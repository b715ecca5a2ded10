//! What the types of lists know of their lengths, made known to proofs.
ghost use Rattle.message_codec.specs.Encoding.{IsAdvertFew, AreFew, IsAskFew, IsTearFew, IsFew};

use rsvp_base::Senders;
use rsvp_messages::{Ask, Message, Tear};
use rsvp_objects::Adspec;

/// Each list of a message has at most 16 senders, and the fragments of an ADSPEC have at most 24 words.
pub fn know_lengths(message: &Message)
    ensures { IsFew message.now }
{
    match message {
        Message::Resv(m) => know_ask(&m.ask),
        Message::ResvConf(m) => know_ask(&m.ask),
        Message::ResvTear(m) => know_tear(&m.tear),
        Message::ResvErr(m) => know_senders(&m.blame.senders),
        Message::Path(m) => know_advert(&m.adspec),
        Message::PathErr(_) | Message::PathTear(_) => {}
    }
}

fn know_ask(ask: &Ask)
    ensures { IsAskFew ask.now }
{
    match ask {
        Ask::Wild { scope, .. } => know_senders(scope),
        Ask::Fixed(list) => {
            let _ = list.len();
        }
        Ask::Shared(part) => {
            let _ = part.senders.len();
        }
    }
}

fn know_tear(tear: &Tear)
    ensures { IsTearFew tear.now }
{
    match tear {
        Tear::Wild { scope } => know_senders(scope),
        Tear::Fixed(senders) | Tear::Shared(senders) => {
            let _ = senders.len();
        }
    }
}

fn know_senders(senders: &Option<Senders>)
    ensures { AreFew senders.now }
{
    if let Some(senders) = senders {
        let _ = senders.len();
    }
}

fn know_advert(adspec: &Option<Adspec>)
    ensures { IsAdvertFew adspec.now }
{
    if let Some(adspec) = adspec {
        let _ = adspec.others.len();
    }
}
