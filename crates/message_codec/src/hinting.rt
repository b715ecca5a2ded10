//! What can be read of bytes that spell no message.
ghost use Rattle.std.specs.Prelude.{◌≡◌, ◌≤◌, length};
ghost use Rattle.message_codec.specs.Hints.{readable, no_hint, with_next, IsHint};

use crate::reading::{HEAD, HEADER};
use rsvp_messages::Hint;
use rsvp_objects::{ObjErr, Object, head_at, object_with};

/// The hint of bytes: of each of four classes what the first object says that has no fault of its own. The walk goes by the
/// lengths of objects, up to the first that is broken.
#[cold]
pub fn hint(bytes: &[u8]) -> Hint
    requires long { 8 ≤ length bytes.now }
    requires short { length bytes.now ≤ 65535 }
    ensures { IsHint bytes.now result }
{
    let mut hint = no_hint();
    let mut at = HEADER;
    while at < bytes.len() {
        let head = match head_at(bytes, at) {
            Ok(head) => head,
            Err(_) => return hint,
        };
        let body = &bytes[at + HEAD..head.end];
        let found = object_with(at as u16, head.class, head.ctype, body);
        hint = with_next(hint, found);
        at = head.end;
    }
    hint
}

/// The hint that says nothing.
pub fn no_hint() -> Hint
    ensures { result ≡ no_hint }
{
    Hint {
        session: None,
        hop: None,
        style: None,
        sender: None,
    }
}

// The hint with one object more, where the object could be read.
#[tactic(auto, unfolding(crate::specs::Hints::with_next))]
fn with_next(hint: Hint, found: Result<Object, ObjErr>) -> Hint
    ensures { result ≡ with_next hint (readable found) }
{
    let mut hint = hint;
    match found {
        Ok(Object::Session { session, .. }) => {
            if hint.session.is_none() {
                hint.session = Some(session);
            }
        }
        Ok(Object::HopOf(hop)) => {
            if hint.hop.is_none() {
                hint.hop = Some(hop);
            }
        }
        Ok(Object::StyleOf(style)) => {
            if hint.style.is_none() {
                hint.style = Some(style);
            }
        }
        Ok(Object::Template(sender)) => {
            if hint.sender.is_none() {
                hint.sender = Some(sender);
            }
        }
        _ => {}
    }
    hint
}
