//! The lines of a report.
ghost use Rattle.std.specs.Prelude.{◌≡◌, ◌≤◌, ◌<◌, ◌++◌, codes, length, OnOk, OnErr, vec_capacity};
ghost use Rattle.std.specs.Io.{StartsWith};
ghost use Rattle.value_texts.specs.Reports.{entry_line, entry_text, head_text};
ghost use Rattle.rsvp_base.specs.Table.{keys};
ghost use Rattle.value_texts.specs.Texts.{flow_text, names_text, session_text, style_text};

use crate::texts::{put, put_flow, put_names, put_number, put_session, put_style};
use rsvp_base::{EntryKey, Flow, NoMemory, Part};

/// Appends the line of an end, as `end NAME held SUM of CAPACITY`: what the entries of its book charge together, and what
/// it has, both in bytes per second. `NoMemory`, here and in each call of this crate: the room that the text had did not suffice,
/// and there was no memory for more; what was there stands at the front of what is.
#[tactic(auto, unfolding(crate::specs::Reports::head_text))]
pub fn put_head(out: &mut Vec<u8>, name: &[u8], held: u64, capacity: u64) -> Result<(), NoMemory>
    ensures text { OnOk result (out.new.items ≡ out.old.items ++ head_text name.now held capacity) }
    ensures front { OnErr result (StartsWith out.new.items out.old.items) }
    ensures full { OnErr result (vec_capacity out.old < length (out.old.items ++ head_text name.now held capacity)) }
    ensures kept { vec_capacity out.old ≤ vec_capacity out.new }
{
    put(out, b"end ")?;
    put(out, name)?;
    put(out, b" held ")?;
    put_number(out, held)?;
    put(out, b" of ")?;
    put_number(out, capacity)?;
    put(out, b"\n")
}

// What an entry is of: its session, its style and its senders.
fn put_who(out: &mut Vec<u8>, key: EntryKey, part: &Part) -> Result<(), NoMemory>
    ensures text { OnOk result (out.new.items ≡ out.old.items ++ (session_text key.session ++ codes " " ++ style_text key.style ++ codes " " ++ names_text key.style (keys part.now.senders))) }
    ensures front { OnErr result (StartsWith out.new.items out.old.items) }
    ensures full { OnErr result (vec_capacity out.old < length (out.old.items
        ++ (session_text key.session ++ codes " " ++ style_text key.style ++ codes " " ++ names_text key.style (keys part.now.senders)))) }
    ensures kept { vec_capacity out.old ≤ vec_capacity out.new }
{
    put_session(out, key.session)?;
    put(out, b" ")?;
    put_style(out, key.style)?;
    put(out, b" ")?;
    put_names(out, key.style, part.senders.as_slice())
}

// The rest of the line of an entry: its flow, and what is said besides.
fn put_what(out: &mut Vec<u8>, flow: Flow, more: &[u8]) -> Result<(), NoMemory>
    ensures text { OnOk result (out.new.items ≡ out.old.items ++ (codes " " ++ flow_text flow ++ more.now ++ codes "\n")) }
    ensures front { OnErr result (StartsWith out.new.items out.old.items) }
    ensures full { OnErr result (vec_capacity out.old < length (out.old.items ++ (codes " " ++ flow_text flow ++ more.now ++ codes "\n"))) }
    ensures kept { vec_capacity out.old ≤ vec_capacity out.new }
{
    put(out, b" ")?;
    put_flow(out, flow)?;
    put(out, more)?;
    put(out, b"\n")
}

/// Appends the line of an entry, as `SESSION STYLE SENDERS FLOW`, and `more`, which is said besides.
#[tactic(auto, unfolding(crate::specs::Reports::entry_line))]
pub fn put_line(out: &mut Vec<u8>, key: EntryKey, part: &Part, more: &[u8]) -> Result<(), NoMemory>
    ensures text { OnOk result (out.new.items ≡ out.old.items ++ entry_line key part.now more.now) }
    ensures front { OnErr result (StartsWith out.new.items out.old.items) }
    ensures full { OnErr result (vec_capacity out.old < length (out.old.items ++ entry_line key part.now more.now)) }
    ensures kept { vec_capacity out.old ≤ vec_capacity out.new }
{
    put_who(out, key, part)?;
    put_what(out, part.flow, more)
}

/// Appends the line of an entry of which nothing is said besides.
pub fn put_entry(out: &mut Vec<u8>, key: EntryKey, part: &Part) -> Result<(), NoMemory>
    ensures text { OnOk result (out.new.items ≡ out.old.items ++ entry_text key part.now) }
    ensures front { OnErr result (StartsWith out.new.items out.old.items) }
    ensures full { OnErr result (vec_capacity out.old < length (out.old.items ++ entry_text key part.now)) }
    ensures kept { vec_capacity out.old ≤ vec_capacity out.new }
{
    put_line(out, key, part, b"")
}
