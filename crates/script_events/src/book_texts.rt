//! The events of books.
ghost use Rattle.std.specs.Prelude.{◌≡◌, ◌++◌, ◌∷◌, [], OnOk, codes};
ghost use Rattle.std.specs.List.{flat_map};
ghost use Rattle.network_model.specs.Texts.{flag_text};
ghost use Rattle.script_events.specs.EventTexts.{book_event, book_members, entries_text, entry_object, flags_member, flags_word, for_members, of_members};

use crate::json::{put_close, put_count, put_event, put_member, put_word};
use router_rules::{Entry, Police};
use rsvp_base::NoMemory;
use value_texts::{put, put_flow, put_names, put_session, put_style};

/// Appends the event of a book with these members.
#[tactic(auto, unfolding(crate::specs::EventTexts::book_event))]
pub fn put_book(out: &mut Vec<u8>, clock: u64, members: &[u8]) -> Result<(), NoMemory>
    ensures { OnOk result (out.new.items ≡ out.old.items ++ book_event clock members.now) }
{
    put_event(out, b"book", clock)?;
    put(out, members)
}

/// Appends the members of the event of a book: the name of its end, what its entries charge together, its capacity, and them.
#[tactic(auto, unfolding(crate::specs::EventTexts::book_members))]
pub fn put_members(
    out: &mut Vec<u8>,
    name: &[u8],
    held: u64,
    capacity: u64,
    entries: &[Entry],
) -> Result<(), NoMemory>
    ensures { OnOk result (out.new.items ≡ out.old.items ++ book_members name.now held capacity entries.now) }
{
    put_word(out, b"end", name)?;
    put_count(out, b"held", held)?;
    put_count(out, b"capacity", capacity)?;
    put_member(out, b"entries")?;
    put(out, b"[")?;
    put_entries(out, entries)?;
    put(out, b"]")?;
    put_close(out)
}

// Appends the entries of a book.
fn put_entries(out: &mut Vec<u8>, entries: &[Entry]) -> Result<(), NoMemory>
    ensures { OnOk result (out.new.items ≡ out.old.items ++ entries_text entries.now) }
{
    let Some((first, others)) = entries.split_first() else {
        return Ok(());
    };
    put_entry(out, first)?;
    put_others(out, others)
}

// Appends entries, each behind a comma.
fn put_others(out: &mut Vec<u8>, others: &[Entry]) -> Result<(), NoMemory>
    ensures { OnOk result (out.new.items ≡ out.old.items ++ flat_map (λ e. codes "," ++ entry_object e) others.now) }
{
    for entry in others {
        put_other(out, entry)?;
    }
    Ok(())
}

// Appends an entry behind a comma.
fn put_other(out: &mut Vec<u8>, entry: &Entry) -> Result<(), NoMemory>
    ensures { OnOk result (out.new.items ≡ out.old.items ++ (codes "," ++ entry_object entry.now)) }
{
    put(out, b",")?;
    put_entry(out, entry)
}

// Appends an entry.
#[tactic(auto, unfolding(crate::specs::EventTexts::entry_object))]
fn put_entry(out: &mut Vec<u8>, entry: &Entry) -> Result<(), NoMemory>
    ensures { OnOk result (out.new.items ≡ out.old.items ++ entry_object entry.now) }
{
    put_of(out, entry)?;
    put_for(out, entry)?;
    put_flags(out, entry)
}

// Appends the session and the style of an entry.
#[tactic(auto, unfolding(crate::specs::EventTexts::of_members))]
fn put_of(out: &mut Vec<u8>, entry: &Entry) -> Result<(), NoMemory>
    ensures { OnOk result (out.new.items ≡ out.old.items ++ of_members entry.now) }
{
    put(out, b"{\"session\":\"")?;
    put_session(out, entry.key.session)?;
    put(out, b"\",\"style\":\"")?;
    put_style(out, entry.key.style)
}

// Appends the senders and the flow of an entry.
#[tactic(auto, unfolding(crate::specs::EventTexts::for_members))]
fn put_for(out: &mut Vec<u8>, entry: &Entry) -> Result<(), NoMemory>
    ensures { OnOk result (out.new.items ≡ out.old.items ++ for_members entry.now) }
{
    put(out, b"\",\"senders\":\"")?;
    put_names(out, entry.key.style, entry.part.senders.as_slice())?;
    put(out, b"\",\"flow\":\"")?;
    put_flow(out, entry.part.flow)
}

// Appends the policing flags of an entry.
#[tactic(auto, unfolding(crate::specs::EventTexts::flags_member))]
fn put_flags(out: &mut Vec<u8>, entry: &Entry) -> Result<(), NoMemory>
    ensures { OnOk result (out.new.items ≡ out.old.items ++ flags_member entry.now) }
{
    put(out, b"\",\"flags\":\"")?;
    put(out, &flags_of(entry.police))?;
    put(out, b"\"}")
}

// The policing flags of an entry.
fn flags_of(police: Police) -> [u8; 3]
    ensures { result ≡ flags_word police }
{
    [
        flag(b'e', police.e),
        flag(b'm', police.m),
        flag(b'b', police.b),
    ]
}

// A flag, or `-`.
fn flag(set: u8, on: bool) -> u8
    ensures { result ∷ [] ≡ flag_text (set ∷ []) on }
{
    if on { set } else { b'-' }
}
