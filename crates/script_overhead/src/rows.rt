//! A worked row: a small network, by computing.
ghost use Rattle.script_overhead.specs.Worked.{APairHasTheRoomThatIsSaid};

/// The text of a script of two nodes, a sender and 28 rounds, and its run, meet the premises of `a_settled_run_has_the_room_that_is_said`,
/// and those of `a_plain_run_has_the_room_that_is_said` and `a_plain_script_stays_roomy`: `check` says of it that a round has at most one
/// datagram in flight, and one is in the half period that follows.
pub fn a_pair_has_the_room_that_is_said()
    ensures { APairHasTheRoomThatIsSaid }
{}
