//! The tables.
use crate::config::Config;
use admission_book::Book;
use blockade_state::Blockades;
use local_state::{Countdowns, LocalSenders, LocalWants};
use path_state::PathTable;
use resv_state::ResvTable;
use style_rules::{Fixed, Shared, Wild};

/// All that a node keeps of its neighbours and of its own senders and receivers, where it stands, and the book of its
/// interfaces.
#[derive(Drop)]
pub struct Tables {
    pub config: Config,
    pub senders: LocalSenders,
    pub wants: LocalWants,
    pub paths: PathTable,
    pub wild: ResvTable<Wild>,
    pub fixed: ResvTable<Fixed>,
    pub shared: ResvTable<Shared>,
    pub walls: Blockades,
    pub due: Countdowns,
    pub book: Book,
}
