//! The lines of what an end owes.
ghost use Rattle.std.specs.Prelude.{◌≡◌, ◌++◌, OnOk};
ghost use Rattle.std.specs.Fmt.{decimal};
ghost use Rattle.std.specs.List.{flat_map};
ghost use Rattle.value_texts.specs.Reports.{entry_text, head_text, held_of};
ghost use Rattle.network_model.specs.DemandTexts.{last_line, yes_or_no};

use itoa::Buffer;
use rsvp_base::{EntryKey, NoMemory, Part};
use style_rules::charge;
use value_texts::{put, put_entry, put_number};

/// What entries charge together, in bytes per second. It need not fit a capacity, nor the 64 bits of one.
pub(crate) fn sum_of_rates(entries: &[(EntryKey, Part)]) -> u128
    ensures { result ≡ held_of entries.now }
{
    let mut sum: u128 = 0;
    for entry in entries {
        sum += u128::from(charge(&entry.1));
    }
    sum
}

/// Appends the line of an end, as `end NAME held SUM of CAPACITY`.
#[tactic(auto, unfolding(value_texts::specs::Reports::head_text))]
pub(crate) fn put_head(
    out: &mut Vec<u8>,
    name: &[u8],
    sum: u128,
    capacity: u64,
) -> Result<(), NoMemory>
    ensures { OnOk result (out.new.items ≡ out.old.items ++ head_text name.now sum capacity) }
{
    put(out, b"end ")?;
    put(out, name)?;
    put(out, b" held ")?;
    put_sum(out, sum)?;
    put(out, b" of ")?;
    put_number(out, capacity)?;
    put(out, b"\n")
}

// Appends a sum in decimal digits.
fn put_sum(out: &mut Vec<u8>, sum: u128) -> Result<(), NoMemory>
    ensures { OnOk result (out.new.items ≡ out.old.items ++ decimal sum) }
{
    let mut buffer = Buffer::new();
    put(out, buffer.format(sum).as_bytes())
}

/// Appends the lines of entries.
pub(crate) fn put_entries(out: &mut Vec<u8>, entries: &[(EntryKey, Part)]) -> Result<(), NoMemory>
    ensures { OnOk result (out.new.items ≡ out.old.items ++ flat_map (λ e. entry_text e.0 e.1) entries.now) }
{
    for entry in entries {
        put_entry(out, entry.0, &entry.1)?;
    }
    Ok(())
}

/// Appends the last line, as `longest 2 fits yes`.
#[tactic(auto, unfolding(network_model::specs::DemandTexts::last_line))]
pub(crate) fn put_last(out: &mut Vec<u8>, longest: u32, fits: bool) -> Result<(), NoMemory>
    ensures { OnOk result (out.new.items ≡ out.old.items ++ last_line longest fits) }
{
    put(out, b"longest ")?;
    put_number(out, u64::from(longest))?;
    put(out, b" fits ")?;
    put(out, yes_or_no(fits))?;
    put(out, b"\n")
}

fn yes_or_no(yes: bool) -> &'static [u8]
    ensures { result.now ≡ yes_or_no yes }
{
    if yes { b"yes" } else { b"no" }
}
