//! What a merger keeps of a unit.
use rsvp_base::{Part, Unit, sorted};

/// The join of the open requests of a unit, or the meet of all of them where none is open.
#[derive(Default, Drop)]
pub(crate) struct Row {
    pub(crate) unit: Unit,
    pub(crate) part: Part,
    pub(crate) is_open: bool,
}

impl sorted::Row for Row {
    ghost use Rattle.style_rules.specs.Tally.{Standing};
    ghost use Rattle.style_rules.specs.TallyRows.{tally_row};

    type Key = Unit;

    ghost Rest = { Standing };

    ghost as_row = { tally_row };

    fn key(&self) -> Unit {
        self.unit
    }
}
