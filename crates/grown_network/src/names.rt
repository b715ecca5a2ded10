//! The names of the ends of a grown network.
ghost use Rattle.std.specs.Prelude.{◌≡◌, ◌≤◌, ◌<◌, ◌++◌, ◌∷◌, [], true, codes, IfOk, OnOk};
ghost use Rattle.std.specs.Fmt.{decimal};
ghost use Rattle.rsvp_base.specs.EndNames.{is_name};
ghost use Rattle.grown_network.specs.Nodes.{names_of_link, names_up_to};

use crate::nodes::NODES;
use rsvp_base::{EndName, NoMemory};
use std::alloc::Global;
use value_texts::{put, put_number};

// The name of a letter and a number.
fn name(alloc: Global, letter: &[u8], number: u16) -> Result<EndName, NoMemory>
    requires { is_name (letter.now ++ decimal number) ≡ true }
    ensures { IfOk result (λ name. name ≡ letter.now ++ decimal number) }
{
    let mut text = Vec::new(alloc);
    put(&mut text, letter)?;
    put_number(&mut text, u64::from(number))?;
    Ok(EndName::of(text.as_slice()).unwrap())
}

// Adds a name.
fn add_name(names: &mut Vec<EndName>, name: EndName) -> Result<(), NoMemory>
    ensures { OnOk result (names.new.items ≡ names.old.items ++ name ∷ []) }
{
    if names.push(name).is_err() {
        return Err(NoMemory);
    }
    Ok(())
}

// Adds the names of the ends of the link of a node.
fn add_names(alloc: Global, names: &mut Vec<EndName>, node: u16) -> Result<(), NoMemory>
    requires { (1 ≤ node) × (node < 64) }
    ensures { OnOk result (names.new.items ≡ names.old.items ++ names_of_link node) }
{
    add_name(names, name(alloc, b"d", node)?)?;
    add_name(names, name(alloc, b"u", node)?)
}

/// The names of the ends, by number. `NoMemory`: there was no room for them.
pub(crate) fn names(alloc: Global) -> Result<Vec<EndName>, NoMemory>
    ensures { IfOk result (λ names. names.items ≡ names_up_to 63) }
{
    let mut names = Vec::new(alloc);
    for node in 1..NODES {
        add_names(alloc, &mut names, node)?;
    }
    Ok(names)
}
