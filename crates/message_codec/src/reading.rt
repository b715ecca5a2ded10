//! Reading the objects of a message.
ghost use Rattle.std.specs.Prelude.{◌≡◌, ◌≤◌, ◌<◌, ◌==◌, false, [], List, length, None, OnOk, IfErr};
ghost use Rattle.rsvp_objects.specs.Classes as number;
ghost use Rattle.rsvp_objects.specs.Classes.{class_with};
ghost use Rattle.rsvp_objects.specs.declared.object.Object.{Object as AnObject};
ghost use Rattle.message_codec.specs.Places.{is_unknown, object_in, Stand};
ghost use Rattle.message_codec.specs.Said.{seen_of};
ghost use Rattle.message_codec.specs.Spells.{StopsAt};
ghost use Rattle.message_codec.specs.Table.{role_of};
ghost use Rattle.message_codec.specs.Taking.{in_place, object_with_head, Reads, Takes};

use crate::places::{has_place, is_repeated};
use crate::role::Role;
use crate::seen::Seen;
use crate::table::{is_unread, role};
use rsvp_messages::{Fault, Kind};
use rsvp_objects::{Class, Head, ObjErr, head_at};

/// The size of the common header, behind which the first object stands (RFC 2205, 3.1.1).
pub const HEADER: usize = 8;

/// The size of an object's head, behind which its contents stand (RFC 2205, 3.1.2).
pub const HEAD: usize = 4;

// The Class-Num of each class that is read.
const SESSION: u8 = Class::SESSION.0;

const RSVP_HOP: u8 = Class::RSVP_HOP.0;

const TIME_VALUES: u8 = Class::TIME_VALUES.0;

const ERROR_SPEC: u8 = Class::ERROR_SPEC.0;

const SCOPE: u8 = Class::SCOPE.0;

const STYLE: u8 = Class::STYLE.0;

const FLOWSPEC: u8 = Class::FLOWSPEC.0;

const FILTER_SPEC: u8 = Class::FILTER_SPEC.0;

const SENDER_TEMPLATE: u8 = Class::SENDER_TEMPLATE.0;

const SENDER_TSPEC: u8 = Class::SENDER_TSPEC.0;

const ADSPEC: u8 = Class::ADSPEC.0;

const RESV_CONFIRM: u8 = Class::RESV_CONFIRM.0;

/// Gathers what all objects of a message say, or answers the first fault of the first that has one.
#[inline(always)]
pub fn walk(kind: Kind, bytes: &[u8], seen: &mut Seen) -> Result<(), Fault>
    requires long { 8 ≤ length bytes.now }
    requires short { length bytes.now ≤ 65535 }
    requires start { seen.old ≡ seen_of [] }
    ensures ok { OnOk result ((xs : List AnObject) × Stand kind bytes.now [] 8 xs (length bytes.now) × (seen.new ≡ seen_of xs)) }
    ensures err { IfErr result (StopsAt kind bytes.now) }
{
    let mut at = HEADER;
    while at < bytes.len() {
        step(kind, seen, &mut at, bytes)?;
    }
    Ok(())
}

// Adds what the object at a place behind others says, and goes to the place behind it. Else the first fault there.
//
// No place stands beside a fault in one `Result`: both would be moved together, in pieces that wait for one another.
#[tactic(auto, unfolding(crate::specs::Places::object_in))]
#[inline(always)]
fn step(kind: Kind, seen: &mut Seen, at: &mut usize, bytes: &[u8]) -> Result<(), Fault>
    requires inside { at.old < length bytes.now }
    requires short { length bytes.now ≤ 65535 }
    ensures takes { Takes (object_in kind seen.old at.old bytes.now) seen.old seen.new at.new result }
    ensures bounds { OnOk result ((at.old < at.new) × (at.new ≤ length bytes.now)) }
{
    let place = *at;
    let head = match head_at(bytes, place) {
        Ok(head) => head,
        Err(fault) => return Err(Fault::Object(fault)),
    };
    let body = &bytes[place + HEAD..head.end];
    *at = head.end;
    take(kind, seen, place as u16, head, body)?;
    Ok(())
}

// Adds what an object with this head and these contents says.
#[tactic(auto, unfolding(rsvp_objects::specs::Classes::class_with))]
#[inline(always)]
fn take(kind: Kind, seen: &mut Seen, at: u16, head: Head, body: &[u8]) -> Result<(), Fault>
    ensures { Takes (object_with_head kind seen.old at head body.now) seen.old seen.new head.end result }
{
    match head.class.0 {
        SESSION => take_class::<SESSION>(kind, seen, at, head, body),
        RSVP_HOP => take_class::<RSVP_HOP>(kind, seen, at, head, body),
        TIME_VALUES => take_class::<TIME_VALUES>(kind, seen, at, head, body),
        ERROR_SPEC => take_class::<ERROR_SPEC>(kind, seen, at, head, body),
        SCOPE => take_class::<SCOPE>(kind, seen, at, head, body),
        STYLE => take_class::<STYLE>(kind, seen, at, head, body),
        FLOWSPEC => take_class::<FLOWSPEC>(kind, seen, at, head, body),
        FILTER_SPEC => take_class::<FILTER_SPEC>(kind, seen, at, head, body),
        SENDER_TEMPLATE => take_class::<SENDER_TEMPLATE>(kind, seen, at, head, body),
        SENDER_TSPEC => take_class::<SENDER_TSPEC>(kind, seen, at, head, body),
        ADSPEC => take_class::<ADSPEC>(kind, seen, at, head, body),
        RESV_CONFIRM => take_class::<RESV_CONFIRM>(kind, seen, at, head, body),
        _ => take_other(kind, seen, at, head, body),
    }
}

// The same where the class is one that is read. This is made anew for each: the class is a constant in it, and all that concerns
// other classes is left out.
#[inline(never)]
fn take_class<const N: u8>(
    kind: Kind,
    seen: &mut Seen,
    at: u16,
    head: Head,
    body: &[u8],
) -> Result<(), Fault>
    requires class { head.class.0 ≡ N }
    requires known { is_unknown N ≡ false }
    ensures { Takes (object_with_head kind seen.old at head body.now) seen.old seen.new head.end result }
{
    let class = Class(N);
    let role = role(kind, class);
    in_place(role, kind, seen, at, class)?;
    if is_unread(role, kind, class) {
        seen.skip(class);
        return Ok(());
    }
    match N {
        SESSION => seen.read_session(at, head.ctype, body),
        RSVP_HOP => seen.read_hop(at, head.ctype, body),
        TIME_VALUES => seen.read_time(at, head.ctype, body),
        ERROR_SPEC => seen.read_error(at, head.ctype, body),
        SCOPE => seen.read_scope(at, head.ctype, body),
        STYLE => seen.read_style(at, head.ctype, body),
        FLOWSPEC => seen.read_flow(at, head.ctype, body),
        FILTER_SPEC => seen.read_filter(at, head.ctype, body),
        SENDER_TEMPLATE => seen.read_template(at, head.ctype, body),
        SENDER_TSPEC => seen.read_tspec(at, head.ctype, body),
        ADSPEC => seen.read_adspec(at, head.ctype, body),
        RESV_CONFIRM => seen.read_confirm(at, head.ctype, body),
        _ => {
            seen.skip(class);
            Ok(())
        }
    }
}

// The same for the other classes, which stand seldom, or nowhere.
#[tactic(auto, using(crate::proofs::Taken::other_read))]
#[inline(never)]
fn take_other(kind: Kind, seen: &mut Seen, at: u16, head: Head, body: &[u8]) -> Result<(), Fault>
    requires none { class_with head.class.0 ≡ None }
    requires other { (head.class.0 == number.adspec) ≡ false }
    ensures { Takes (object_with_head kind seen.old at head body.now) seen.old seen.new head.end result }
{
    let class = head.class;
    if !class.is_known() {
        return Err(Fault::Object(ObjErr::Class(at, class.0, head.ctype)));
    }
    in_place(role(kind, class), kind, seen, at, class)?;
    seen.skip(class);
    Ok(())
}

// Refused where an object of a class, of this role in the kind, may not stand at a place behind those that were seen, or not a
// second time.
#[inline(always)]
fn in_place(role: Role, kind: Kind, seen: &Seen, at: u16, class: Class) -> Result<(), Fault>
    requires role { role ≡ role_of kind class.0 }
    ensures { result ≡ in_place kind seen.now at class.0 }
{
    if !has_place(role, kind, seen, class) {
        return Err(Fault::Order(at));
    }
    if is_repeated(role, kind, seen, class) {
        return Err(Fault::Repeated(at));
    }
    Ok(())
}
