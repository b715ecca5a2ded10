//! The laws.
ghost use Rattle.script_overhead.specs.Plain.{APlainRunHasTheRoomThatIsSaid, APlainScriptStaysRoomy};
ghost use Rattle.script_overhead.specs.Roomy.{ASettledRunHasTheRoomThatIsSaid, OverheadsStand};

/// The refresh overhead of the network behind the lines of a script, by the routing in force and by what its nodes then send and want, is
/// that which is counted from the lines.
pub fn overheads_stand()
    ensures { OverheadsStand }
{}

/// A settled run has the room that `check` says: of a script of which it says no misfit, and in its last line that a round has at most n
/// refreshes in flight and that these crowd no later round, if the run is not crowded, ends in 13 H + 13 calm rounds, H the longest chain of
/// hops, and leaves nothing in flight but Paths and Resvs that ask for no confirmation, then in further rounds there are no more than n in
/// flight beside what was in flight at its end, and behind each of them nothing is. Where both together are 8,192 at most, as they are
/// where nothing is in flight at its end, no further round is crowded, however many there are.
pub fn a_settled_run_has_the_room_that_is_said()
    ensures { ASettledRunHasTheRoomThatIsSaid }
{}

/// What is asked of its end one reads of the lines: where none of them injects a datagram or asks for a confirmation, 13 H + 14 calm rounds
/// leave nothing in flight but Paths and Resvs that ask for no confirmation, so that a run that ends in as many, and is not crowded, has the
/// room that `check` says.
pub fn a_plain_run_has_the_room_that_is_said()
    ensures { APlainRunHasTheRoomThatIsSaid }
{}

/// A plain script stays roomy: of a script of which `check` says no misfit, and in its last line that a round has at most n refreshes in
/// flight and that these crowd no later round, and which ends in rounds, with lines that only write among them and behind them, if its run
/// is not crowded, then nothing is in flight at its end, and in rounds that follow no more than n, and none of these is crowded, however
/// many they are. These rounds are to be 13 H + 15 together at least, H the longest chain of hops of the routing in force, where none of the
/// lines injects a datagram or asks for a confirmation; or 14 H + 16 at least, where each session has one sender at most behind the lines.
pub fn a_plain_script_stays_roomy()
    ensures { APlainScriptStaysRoomy }
{}
