//! Wants over hops are charged to the ends that the hops go out of.
ghost use Rattle.std.specs.Prelude.{◌≡◌, ◌++◌, ◌<◌, ◌≤◌, ◌∷◌, [], List, length, slice_set, OnOk, Some};
ghost use Rattle.rsvp_base.specs.declared.addr.Addr.{Addr};
ghost use Rattle.rsvp_base.specs.declared.part.Part.{Part};
ghost use Rattle.rsvp_base.specs.declared.style.Unit.{Unit as UnitOf};
ghost use Rattle.rsvp_base.specs.Orders.{Names};
ghost use Rattle.rsvp_base.specs.Sets.{union, IsWithin};
ghost use Rattle.rsvp_base.specs.Table.{get, size};
ghost use Rattle.rsvp_base.specs.Members.{In};
ghost use Rattle.style_rules.specs.Lines.{Line};
ghost use Rattle.tree_model.specs.Networks.{Net};
ghost use Rattle.network_demand.specs.Books.{charged, book_at, HaveLines, NameOnly, HasRoom, AreInside, want_lines, wants_lines};

use crate::end_book::EndBook;
use crate::hop_want::HopWant;
use rsvp_base::{EntryKey, NoMemory, Part, Session, Unit};
use style_rules::Style;

// Charges a unit's part to the entry of an end.
fn charge_row<S: Style>(
    books: &mut Vec<EndBook>,
    end: u16,
    session: Session,
    row: &(Unit, Part),
) -> Result<(), NoMemory>
    requires there { end < length books.old.items }
    requires room { (q : Part) → get (book_at books.old.items end) (record { session = session; style = S.kind_is; unit = row.now.0 }) ≡ Some q → size (union q.senders row.now.1.senders) ≤ 16 }
    ensures size { OnOk result (length books.new.items ≡ length books.old.items) }
    ensures books { OnOk result (books.new.items
        ≡ slice_set books.old.items end (charged (book_at books.old.items end) (record {
          session = session;
          style = S.kind_is;
          unit = row.now.0;
        }) row.now.1)) }
{
    let key = EntryKey {
        session,
        style: S::kind(),
        unit: row.0,
    };
    let book = &mut books[end as usize];
    book.charge::<S>(key, &row.1)
}

// Charges what is wanted over a hop, of a style and session, to the end that the hop goes out of.
fn charge_want<S: Style>(
    books: &mut Vec<EndBook>,
    session: Session,
    want: &HopWant,
) -> Result<(), NoMemory>
    requires inside { AreInside books.old.items (want.now ∷ []) }
    requires room { HasRoom S.kind_is session books.old.items (want.now ∷ []) }
    ensures size { OnOk result (length books.new.items ≡ length books.old.items) }
    ensures lines { OnOk result ((fed : List Line) (next : Addr) → HaveLines fed books.old.items → HaveLines (fed ++ want_lines S.kind_is session next want.now) books.new.items) }
    ensures names { OnOk result ((all : Names) → NameOnly S.kind_is session all books.old.items
        → ((e : UnitOf × Part) → In e want.now.parts.rows → IsWithin e.1.senders all) → NameOnly S.kind_is session all books.new.items) }
{
    for row in want.parts.as_slice() {
        charge_row::<S>(books, want.hop.from, session, row)?;
    }
    Ok(())
}

/// Charges what is wanted over hops, of a style and session, to the ends that the hops go out of. `NoMemory`: there was no
/// room for the entries.
pub(crate) fn charge_wants<S: Style>(
    books: &mut Vec<EndBook>,
    session: Session,
    wants: &[HopWant],
) -> Result<(), NoMemory>
    requires inside { AreInside books.old.items wants.now }
    requires room { HasRoom S.kind_is session books.old.items wants.now }
    ensures size { OnOk result (length books.new.items ≡ length books.old.items) }
    ensures lines { OnOk result ((fed : List Line) (net : Net) → HaveLines fed books.old.items → HaveLines (fed ++ wants_lines S.kind_is session net wants.now) books.new.items) }
{
    for want in wants {
        charge_want::<S>(books, session, want)?;
    }
    Ok(())
}
