//! The whole text of a demand.
ghost use Rattle.std.specs.Prelude.{◌≡◌, ◌++◌, length, slice_get, IfOk, OnOk};
ghost use Rattle.std.specs.List.{flat_map, range_with_len};
ghost use Rattle.network_demand.specs.Asked.{locals_of};
ghost use Rattle.network_demand.specs.Demands.{AreLocals};
ghost use Rattle.script_demand.specs.Owing.{end_owes, named_owes};
ghost use Rattle.network_model.specs.DemandTexts.{IsDemandText};

use crate::demand_lines::{put_entries, put_head, put_last, sum_of_rates};
use network_demand::{EndBook, Locals, demand};
use rsvp_base::{EndName, NoMemory};
use std::alloc::Global;
use tree_routing::{End, Routing};

/// The text of the demand of what hosts ask of a network (RFC 2205, 2.2): for each end in order a report of what it owes, as if it
/// were what it holds, and a last line, as `longest 2 fits yes`, with the length of the longest chain of hops and whether the
/// demands fit. An end without a name is left out. `NoMemory`: there was no room for the demand or its text.
pub fn demand_text(
    alloc: Global,
    names: &[EndName],
    routing: &Routing,
    locals: &Locals,
) -> Result<Vec<u8>, NoMemory>
    requires { AreLocals routing.now (locals_of locals.now) }
    ensures { IfOk result (λ text. IsDemandText names.now routing.now (locals_of locals.now) text.items) }
{
    let demand = demand(alloc, routing, locals)?;
    let mut text = Vec::new(alloc);
    put_ends(&mut text, names, routing.ends(), demand.ends.as_slice())?;
    put_last(&mut text, routing.longest(), demand.fits)?;
    Ok(text)
}

// Appends what each end owes.
fn put_ends(
    out: &mut Vec<u8>,
    names: &[EndName],
    ends: &[End],
    owed: &[EndBook],
) -> Result<(), NoMemory>
    requires { length owed.now ≡ length ends.now }
    ensures { OnOk result (out.new.items ≡ out.old.items ++ flat_map (end_owes names.now ends.now owed.now) (range_with_len 0 (length ends.now))) }
{
    for end in 0..ends.len() {
        put_end(out, names, end, ends[end].iface.capacity, &owed[end])?;
    }
    Ok(())
}

// Appends what an end owes, if it has a name.
fn put_end(
    out: &mut Vec<u8>,
    names: &[EndName],
    end: usize,
    capacity: u64,
    owes: &EndBook,
) -> Result<(), NoMemory>
    ensures { OnOk result (out.new.items ≡ out.old.items ++ named_owes capacity owes.now (slice_get names.now end)) }
{
    let Some(name) = names.get(end) else {
        return Ok(());
    };
    let entries = owes.as_slice();
    put_head(out, name.bytes(), sum_of_rates(entries), capacity)?;
    put_entries(out, entries)
}
