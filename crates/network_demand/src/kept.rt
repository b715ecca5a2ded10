//! Numbers that are kept one by one.
ghost use Rattle.std.specs.Prelude.{◌≡◌, ◌++◌, ◌∷◌, [], cond, OnOk};

use rsvp_base::NoMemory;

/// Keeps a number, if this holds of it.
pub(crate) fn keep_if(numbers: &mut Vec<usize>, number: usize, holds: bool) -> Result<(), NoMemory>
    ensures { OnOk result (numbers.new.items ≡ numbers.old.items ++ cond holds (number ∷ []) []) }
{
    if holds {
        numbers.push(number)?;
    }
    Ok(())
}
