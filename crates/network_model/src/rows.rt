//! Worked rows: what small scripts write. Each holds by computing the run.
ghost use Rattle.network_model.specs.Rows.{OneReceiver, FirstRun, LargerRate, Traced, Injected, SharedLink, MovedTree};

/// One receiver: its reservation stands at both links after four passes, and while it is refreshed. Where refreshes are
/// missed for longer than a lifetime it is gone.
pub fn one_receiver()
    ensures { OneReceiver }
{}

/// The first run: left-over reservations die at their moments.
pub fn first_run()
    ensures { FirstRun }
{}

/// Two receivers are merged into the larger rate; with policing flags.
pub fn larger_rate()
    ensures { LargerRate }
{}

/// A refused raise keeps the old reservation, a greedy receiver is blockaded, tears go on, a cleared node answers.
pub fn traced()
    ensures { Traced }
{}

/// What is injected is handled as what was sent.
pub fn injected()
    ensures { Injected }
{}

/// On a link of four ends a Path goes to each other one.
pub fn shared_link()
    ensures { SharedLink }
{}

/// A tree that moves takes its reservation with it.
pub fn moved_tree()
    ensures { MovedTree }
{}
