//! The event of what is in flight.
ghost use Rattle.std.specs.Prelude.{◌≡◌, ◌++◌, OnOk, codes};
ghost use Rattle.std.specs.Fmt.{decimal};
ghost use Rattle.std.specs.List.{flat_map};
ghost use Rattle.script_events.specs.EventTexts.{flight_event, ids_text};

use crate::json::{put_close, put_event, put_member};
use rsvp_base::NoMemory;
use value_texts::{put, put_number};

/// Appends that the datagrams of these numbers are in flight.
#[tactic(auto, unfolding(crate::specs::EventTexts::flight_event))]
pub fn put_flight(out: &mut Vec<u8>, clock: u64, ids: &[u64]) -> Result<(), NoMemory>
    ensures { OnOk result (out.new.items ≡ out.old.items ++ flight_event clock ids.now) }
{
    put_event(out, b"flight", clock)?;
    put_member(out, b"ids")?;
    put(out, b"[")?;
    put_numbers(out, ids)?;
    put(out, b"]")?;
    put_close(out)
}

// Appends numbers, joined by commas.
fn put_numbers(out: &mut Vec<u8>, ids: &[u64]) -> Result<(), NoMemory>
    ensures { OnOk result (out.new.items ≡ out.old.items ++ ids_text ids.now) }
{
    let Some((first, others)) = ids.split_first() else {
        return Ok(());
    };
    put_number(out, *first)?;
    put_others(out, others)
}

// Appends numbers, each behind a comma.
fn put_others(out: &mut Vec<u8>, others: &[u64]) -> Result<(), NoMemory>
    ensures { OnOk result (out.new.items ≡ out.old.items ++ flat_map (λ n. codes "," ++ decimal n) others.now) }
{
    for id in others {
        put_other(out, *id)?;
    }
    Ok(())
}

// Appends a number behind a comma.
fn put_other(out: &mut Vec<u8>, id: u64) -> Result<(), NoMemory>
    ensures { OnOk result (out.new.items ≡ out.old.items ++ (codes "," ++ decimal id)) }
{
    put(out, b",")?;
    put_number(out, id)
}
