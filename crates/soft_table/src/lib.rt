//! Tables of facts that expire, one fact for a key: what the tables of paths, reservations and blockades have in common (RFC 2205,
//! 2.3 and 3.7). Contracts see the facts in the order of their keys, each with the milliseconds that are left of it, and the dead
//! facts that wait to be pulled. Memory is taken when a table is opened, and never later.
//!
//! A table (`SoftTable`) stands on a pool of slots, in which its facts are, and on lists of their rows by session, in the order of keys:
//! a fact is put, found and removed, and a session's facts are gone through, without a look at the rows of other sessions, and no row
//! is moved.
//!
//! **The pool.** A `Pool` has a fixed number of slots. A slot is free, or live with a value and the milliseconds that are left of it, or
//! due: what was left has run out, and the value waits to be pulled. Time passes only where `advance` says so. A slot's bytes are
//! written when it is first used, so that a pool with room for many values and few in it stays small. Contracts see the list of
//! what is in each slot.
//!
//! It is a hashed timing wheel: each slot stands in exactly one list, that of the free slots, that of the due ones, or one of the
//! 256 of the wheel, 1,024 ms to a list. A value that is added stands in the list of its moment. Where it is renewed and
//! its moment comes no earlier than before, it stays in its list, and no link is written; when time passes that list, it
//! is put into the list of its moment. A pool keeps a soonest time: no live value stands in its list for a time before it,
//! and so none runs out before it. `advance` takes a fixed number of steps where the wait ends before that time: it looks at
//! no list. Otherwise it goes through the lists of the time that passes and no other, each at most once, and then reads the
//! heads of the lists ahead, at most all 256, up to the first that has a slot: the soonest time is then that of this list.
//! Besides, once in 2^62 ms, `advance` sets the clock and every moment back. `open` and `clear` write the heads of all
//! lists; every other call takes a fixed number of steps.
//!
//! The lists (`SlotLists`) are linked both ways by number: each is a circle through a head of its own, so that a slot is taken
//! out where it is. Contracts see the list that each slot is in, and no link. A slot takes 18 bytes beside its value (8 for its
//! moment, 10 for its place in a list) and a pool 2,072 bytes for the heads of its lists.
//!
//! **The rows by session** (`SessionLists`). The slots of the rows stand in one ring in the order of keys, linked both ways by number, and
//! each session that has rows has a head that leads to the first of them. The heads are searched by halves, and a key is sought along the
//! rows of its session; behind 8 of them it is searched among marks, which are rows at most 32 apart, and then along the rows from the
//! last mark that is not behind it. Contracts see the sorted list of rows, no link and no mark. A slot's 8 bytes of links and its key are
//! written when it is first used.
#![tactic(auto)]

mod cell;
mod entry;
mod fact;
mod finger;
mod heads;
mod marks;
mod order;
mod pool;
mod rest_order;
mod ring;
mod row_keys;
mod rows;
mod session_facts;
mod session_lists;
mod slot_lists;
mod table;
mod wheel;

pub use cell::{Cell, Slot};
pub use fact::Fact;
pub use finger::Finger;
pub use pool::Pool;
pub use rest_order::RestOrder;
pub use session_facts::SessionFacts;
pub use session_lists::{Gap, SessionLists};
pub use slot_lists::{LISTS, SlotLists};
pub use table::SoftTable;
