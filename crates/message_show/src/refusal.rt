//! The lines of bytes that are no message.
ghost use Rattle.std.specs.Prelude.{◌≡◌, ◌≤◌, ◌<◌, ◌++◌, length, OnOk, OnErr, vec_capacity};
ghost use Rattle.std.specs.Io.{StartsWith};
ghost use Rattle.message_show.specs.RefusalText.{fault_text, object_fault_text, placed_text, refusal_text, typed_text};

use rsvp_base::NoMemory;
use rsvp_messages::Fault;
use rsvp_objects::ObjErr;
use value_texts::{put, put_number};

#[tactic(auto, unfolding(crate::specs::RefusalText::placed_text))]
fn put_placed(out: &mut Vec<u8>, name: &[u8], place: u16) -> Result<(), NoMemory>
    ensures text { OnOk result (out.new.items ≡ out.old.items ++ placed_text name.now place) }
    ensures front { OnErr result (StartsWith out.new.items out.old.items) }
    ensures full { OnErr result (vec_capacity out.old < length (out.old.items ++ placed_text name.now place)) }
    ensures kept { vec_capacity out.old ≤ vec_capacity out.new }
{
    put(out, name)?;
    put(out, b" ")?;
    put_number(out, u64::from(place))
}

#[tactic(auto, unfolding(crate::specs::RefusalText::typed_text))]
fn put_typed(
    out: &mut Vec<u8>,
    name: &[u8],
    place: u16,
    class: u8,
    ctype: u8,
) -> Result<(), NoMemory>
    ensures text { OnOk result (out.new.items ≡ out.old.items ++ typed_text name.now place class ctype) }
    ensures front { OnErr result (StartsWith out.new.items out.old.items) }
    ensures full { OnErr result (vec_capacity out.old < length (out.old.items ++ typed_text name.now place class ctype)) }
    ensures kept { vec_capacity out.old ≤ vec_capacity out.new }
{
    put_placed(out, name, place)?;
    put(out, b" ")?;
    put_number(out, u64::from(class))?;
    put(out, b"/")?;
    put_number(out, u64::from(ctype))
}

fn put_object_fault(out: &mut Vec<u8>, error: ObjErr) -> Result<(), NoMemory>
    ensures text { OnOk result (out.new.items ≡ out.old.items ++ object_fault_text error) }
    ensures front { OnErr result (StartsWith out.new.items out.old.items) }
    ensures full { OnErr result (vec_capacity out.old < length (out.old.items ++ object_fault_text error)) }
    ensures kept { vec_capacity out.old ≤ vec_capacity out.new }
{
    match error {
        ObjErr::Short(place) => put_placed(out, b"Short", place),
        ObjErr::Length(place) => put_placed(out, b"Length", place),
        ObjErr::Class(place, class, ctype) => put_typed(out, b"Class", place, class, ctype),
        ObjErr::CType(place, class, ctype) => put_typed(out, b"CType", place, class, ctype),
        ObjErr::Contents(place) => put_placed(out, b"Contents", place),
        ObjErr::Style(place) => put_placed(out, b"Style", place),
        ObjErr::Service(place) => put_placed(out, b"Service", place),
        ObjErr::Flow(place) => put_placed(out, b"Flow", place),
        ObjErr::Tspec(place) => put_placed(out, b"Tspec", place),
        ObjErr::Crowd(place) => put_placed(out, b"Crowd", place),
    }
}

fn put_fault(out: &mut Vec<u8>, fault: Fault) -> Result<(), NoMemory>
    ensures text { OnOk result (out.new.items ≡ out.old.items ++ fault_text fault) }
    ensures front { OnErr result (StartsWith out.new.items out.old.items) }
    ensures full { OnErr result (vec_capacity out.old < length (out.old.items ++ fault_text fault)) }
    ensures kept { vec_capacity out.old ≤ vec_capacity out.new }
{
    match fault {
        Fault::TooLong => put(out, b"TooLong"),
        Fault::Short => put(out, b"Short"),
        Fault::Version => put(out, b"Version"),
        Fault::Length => put(out, b"Length"),
        Fault::Checksum => put(out, b"Checksum"),
        Fault::Kind => put(out, b"Kind"),
        Fault::Object(error) => put_object_fault(out, error),
        Fault::Order(place) => put_placed(out, b"Order", place),
        Fault::Repeated(place) => put_placed(out, b"Repeated", place),
        Fault::Missing(class) => put_placed(out, b"Missing", u16::from(class)),
    }
}

/// Appends the line of bytes that spell no message: the name of their first fault, and its place or class. `NoMemory`:
/// the room that the text had did not suffice, and there was no memory for more; what was there stands at the front of what is.
#[tactic(auto, unfolding(crate::specs::RefusalText::refusal_text))]
pub fn put_refusal(out: &mut Vec<u8>, fault: Fault) -> Result<(), NoMemory>
    ensures text { OnOk result (out.new.items ≡ out.old.items ++ refusal_text fault) }
    ensures front { OnErr result (StartsWith out.new.items out.old.items) }
    ensures full { OnErr result (vec_capacity out.old < length (out.old.items ++ refusal_text fault)) }
    ensures kept { vec_capacity out.old ≤ vec_capacity out.new }
{
    put(out, b"refused ")?;
    put_fault(out, fault)?;
    put(out, b"\n")
}
