//! The work that is timed.
ghost use Rattle.std.specs.Prelude.{◌≤◌, length, IfOk};
ghost use Rattle.rsvp_bench.specs.Walk.{Stand};

use crate::sample::objects;
use rsvp_base::Full;
use rsvp_objects::{ObjErr, Object, Packet, next_object, put_object};

/// How many objects were read or written, and the sum of their weights.
#[derive(Clone, Copy, Default)]
pub struct Done {
    pub objects: u64,
    pub sum: u64,
}

/// Reads the objects of one text so many times.
pub fn read_times(times: u32) -> Done {
    let mut done = Done::default();
    let Some(objects) = objects() else {
        return done;
    };
    let mut packet = Packet::new();
    if put_all(&objects, &mut packet).is_err() {
        return done;
    }
    for _ in 0..times {
        let Ok(read) = read_all(packet.bytes()) else {
            return done;
        };
        done = both(done, read);
    }
    done
}

/// Writes the objects of one text so many times, one behind the other, and into an empty packet where one is full.
pub fn write_times(times: u32) -> Done {
    let mut done = Done::default();
    let Some(objects) = objects() else {
        return done;
    };
    let mut packet = Packet::new();
    for _ in 0..times {
        if put_all(&objects, &mut packet).is_err() {
            packet = Packet::new();
            if put_all(&objects, &mut packet).is_err() {
                return done;
            }
        }
        let written = Done {
            objects: objects.len() as u64,
            sum: packet.bytes().len() as u64,
        };
        done = both(done, written);
    }
    done
}

// Both counts and sums together.
fn both(a: Done, b: Done) -> Done {
    Done {
        objects: a.objects.wrapping_add(b.objects),
        sum: a.sum.wrapping_add(b.sum),
    }
}

// Puts objects one behind the other, up to the first that does not fit.
fn put_all(objects: &[Object], packet: &mut Packet) -> Result<(), Full> {
    for object in objects {
        put_object(object, packet)?;
    }
    Ok(())
}

// The objects in a text of at most 4,096 bytes, or its first fault.
fn read_all(text: &[u8]) -> Result<Done, ObjErr>
    requires { length text.now ≤ 4096 }
    ensures { IfOk result (λ d. Stand d.objects text.now (length text.now)) }
{
    let mut objects = 0;
    let mut sum = 0u64;
    let mut at = 0;
    while at < text.len() {
        let (object, end) = next_object(text, at)?;
        objects += 1;
        sum = sum.wrapping_add(weight(&object));
        at = end;
    }
    Ok(Done { objects, sum })
}

// A number of each object, so that what is read is used.
fn weight(object: &Object) -> u64 {
    match object {
        Object::Session { session, police: _ } => session.port as u64,
        Object::HopOf(hop) => hop.addr.0 as u64,
        Object::Time(period) => *period as u64,
        Object::Scope(senders) => senders.len() as u64,
        Object::FlowOf(flow) => flow.most as u64,
        _ => 1,
    }
}
