//! A report is compared with a demand.
ghost use Rattle.std.specs.Prelude.{◌≡◌, ◌↔◌, ◌++◌, true, List, ℕ, IsTrue, IfOk, OnOk, bytes_eq};
ghost use Rattle.network_model.specs.DemandTexts.{last_line};

use rsvp_base::NoMemory;
use std::alloc::Global;
use value_texts::{put, put_number};

/// Whether a report is a demand that fits but for its last line, which tells this length of the longest chain of hops. `NoMemory`:
/// there was no room to compare them.
pub fn is_demand(
    alloc: Global,
    report: &[u8],
    demand: &[u8],
    longest: u32,
) -> Result<bool, NoMemory>
    ensures { IfOk result (λ same. (told : List ℕ) → demand.now ≡ told ++ last_line longest true → same ≡ bytes_eq report.now told) }
{
    let mut last = Vec::new(alloc);
    put_last(&mut last, longest)?;
    Ok(is_followed(demand, report, last.as_slice()))
}

// Appends the last line of a demand that fits.
#[tactic(auto, unfolding(network_model::specs::DemandTexts::last_line))]
fn put_last(out: &mut Vec<u8>, longest: u32) -> Result<(), NoMemory>
    ensures { OnOk result (out.new.items ≡ out.old.items ++ last_line longest true) }
{
    put(out, b"longest ")?;
    put_number(out, u64::from(longest))?;
    put(out, b" fits yes\n")
}

// Whether a text is this front, followed by this line.
fn is_followed(text: &[u8], front: &[u8], line: &[u8]) -> bool
    ensures { IsTrue result ↔ (text.now ≡ front.now ++ line.now) }
{
    match text.strip_prefix(front) {
        Some(rest) => rest == line,
        None => false,
    }
}
