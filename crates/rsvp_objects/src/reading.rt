//! Reading objects.
ghost use Rattle.std.specs.Prelude.{◌≡◌, ◌≤◌, ◌<◌, ◌+◌, length, drop, IfOk};
ghost use Rattle.rsvp_objects.specs.Classes.{has_size};
ghost use Rattle.rsvp_objects.specs.Reading.{head_of, advert_in, passed_over, body_of, object_at};

use crate::adspec::Adspec;
use crate::class::Class;
use crate::contents::contents;
use crate::fields::half_at;
use crate::head::Head;
use crate::obj_err::ObjErr;
use crate::object::Object;
use crate::read_class::ReadClass;
use crate::{places, read};

/// The object at a place, and the place after it. Else the first fault there, in the order of `ObjErr`.
#[tactic(auto, unfolding(crate::specs::Reading::object_at))]
pub fn next_object(bytes: &[u8], at: usize) -> Result<(Object, usize), ObjErr>
    requires inside { at < length bytes.now }
    requires short { length bytes.now ≤ 65535 }
    ensures is { result ≡ object_at at bytes.now }
    ensures bounds { IfOk result (λ r. (at + 4 ≤ r.1) × (r.1 ≤ length bytes.now)) }
{
    let head = head_at(bytes, at)?;
    let body = &bytes[at + places::object::CONTENTS..head.end];
    let object = object_with(at as u16, head.class, head.ctype, body)?;
    Ok((object, head.end))
}

/// The head of the object at a place. Refused as `Short` or `Length` alone.
#[tactic(auto, unfolding(crate::specs::Reading::head_of))]
#[inline(always)]
pub fn head_at(bytes: &[u8], at: usize) -> Result<Head, ObjErr>
    requires inside { at ≤ length bytes.now }
    requires short { length bytes.now ≤ 65535 }
    ensures is { result ≡ head_of at (drop at bytes.now) }
    ensures bounds { IfOk result (λ h. (at + 4 ≤ h.end) × (h.end ≤ length bytes.now)) }
{
    let left = &bytes[at..];
    if left.len() < places::object::CONTENTS {
        return Err(ObjErr::Short(at as u16));
    }
    let length = half_at(left, 0) as usize;
    if length < places::object::CONTENTS || length % 4 != 0 || left.len() < length {
        return Err(ObjErr::Length(at as u16));
    }
    Ok(Head {
        class: Class(left[places::object::CLASS]),
        ctype: left[places::object::CTYPE],
        end: at + length,
    })
}

/// The object with this class, C-Type and contents. `at` is its place, for the fault that it has otherwise.
#[tactic(auto, unfolding(crate::specs::Reading::body_of))]
#[inline(always)]
pub fn object_with(at: u16, class: Class, ctype: u8, body: &[u8]) -> Result<Object, ObjErr>
    ensures { result ≡ body_of at class.0 ctype body.now }
{
    if class.is_skipped() {
        return Ok(passed_over(class, ctype, body));
    }
    let Some(known) = ReadClass::of(class) else {
        return Err(ObjErr::Class(at, class.0, ctype));
    };
    if ctype != known.ctype() {
        return Err(ObjErr::CType(at, class.0, ctype));
    }
    if !has_size(known.size(), body) {
        return Err(ObjErr::Contents(at));
    }
    contents(at, known, body)
}

// The ADSPEC where contents are of its form; any other object of a class that is skipped stays unread.
#[inline(always)]
fn passed_over(class: Class, ctype: u8, body: &[u8]) -> Object
    ensures { result ≡ passed_over class.0 (advert_in class.0 ctype body.now) }
{
    match advert(class, ctype, body) {
        Some(adspec) => Object::Advert(adspec),
        None => Object::Skipped { class: class.0 },
    }
}

#[tactic(auto, unfolding(crate::specs::Reading::advert_in))]
fn advert(class: Class, ctype: u8, body: &[u8]) -> Option<Adspec>
    ensures { result ≡ advert_in class.0 ctype body.now }
{
    if class == Class::ADSPEC {
        read::adspec(ctype, body)
    } else {
        None
    }
}

/// Whether contents have the size, where it is fixed.
#[inline(always)]
pub fn has_size(size: Option<usize>, body: &[u8]) -> bool
    ensures { result ≡ has_size size body.now }
{
    match size {
        Some(n) => body.len() == n,
        None => true,
    }
}
