//! How far a run is, in a line on the terminal.

use command_run::Watch;
use network_model::Event;
use network_replay::{Router, World};
use router_rules::Heard;
use std::io::{Eprint, IsTerminal};
use std::time::{Duration, Instant};

// So many milliseconds at least lie between two lines.
const PAUSE: u64 = 250;

/// Writes on standard error how far the rounds of an event are: a line, at most four times a second, each in the place of the one
/// before; it is taken away when they are over. Where standard error is no terminal, or there is no clock, nothing is written. A line
/// that cannot be written changes nothing.
#[derive(Drop)]
pub struct Progress {
    rt: HostRuntime,
    // When it wrote last, or was opened; `None` where nothing is to be written.
    wrote: Option<Instant>,
    // Whether a line stands on the terminal.
    stands: bool,
}

impl Progress {
    /// It has written nothing yet.
    pub fn open(rt: HostRuntime) -> Progress {
        let wrote = if rt.stderr().is_terminal() {
            Instant::now(&rt).ok()
        } else {
            None
        };
        Progress {
            rt,
            wrote,
            stands: false,
        }
    }

    /// The same, for a run whose text comes all the while: nothing is written where that goes to a terminal too.
    pub fn open_beside(rt: HostRuntime) -> Progress {
        if rt.stdout().is_terminal() {
            return Progress {
                rt,
                wrote: None,
                stands: false,
            };
        }
        Progress::open(rt)
    }

    /// Takes its line away, if one stands.
    pub fn clear(&mut self) {
        if self.stands {
            let _ = eprint!(self.rt; "\r\x1b[K");
            self.stands = false;
        }
    }
}

impl Watch for Progress {
    ghost saw = { λ w ss. Unit {0} };

    fn round_over<R: Router + Drop>(&mut self, world: &World<R>, done: u32, all: u32) {
        if done == all {
            self.clear();
            return;
        }
        let Some(wrote) = self.wrote else {
            return;
        };
        let Ok(now) = Instant::now(&self.rt) else {
            return;
        };
        if now.duration_since(wrote) < Duration::from_millis(PAUSE) {
            return;
        }
        self.wrote = Some(now);
        self.stands = true;
        let delivered = world.delivered();
        let _ = eprint!(self.rt; "\rrounds {done} of {all}, {delivered} deliveries");
    }

    fn delivered<R: Router + Drop>(&mut self, _world: &World<R>, _place: usize, _heard: Heard) {}

    fn waited<R: Router + Drop>(&mut self, _world: &World<R>, _ms: u32) {}

    fn happens<R: Router + Drop>(&mut self, _world: &World<R>, _line: &[u8]) {}

    fn happened<R: Router + Drop>(&mut self, _world: &World<R>, _event: &Event, _text: &[u8]) {}
}
