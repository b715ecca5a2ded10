//! What watches a run and writes its events.
ghost use Rattle.std.specs.Prelude.{◌≡◌, ◌⊎◌, IfErr, IfSome};

use crate::books::{Books, name_of};
use crate::datagrams::{
    kind_word, put_copied, put_datagram, put_delivered, put_lost, put_shown, put_went,
};
use crate::flying::{Flying, put_flying};
use crate::lines::{put_end, put_line, put_report, put_round};
use crate::senders::{From, sender_of};
use byte_streams::{Sink, write_all};
use message_codec::decode;
use network_flight::room;
use network_model::Event;
use network_replay::{Router, World};
use router_rules::Heard;
use rsvp_base::NoMemory;
use rsvp_objects::Packet;
use script_run::Ending;
use std::alloc::Global;

// So many bytes of text wait at most before they are written, but for those of one event.
const MOST_WAITING: usize = 32_768;

// Why nothing more is written.
#[derive(Clone, Copy)]
enum Stopped {
    WriteFault,
    NoMemory,
}

/// Watches the run of a script, and writes its events to a sink.
#[derive(Drop)]
pub struct Recorder<K: Sink + Drop> {
    alloc: Global,
    sink: K,
    // What is not written yet.
    text: Vec<u8>,
    stopped: Option<Stopped>,
    // The number of the line that was taken last.
    line: u32,
    // Milliseconds from the beginning of the run.
    clock: u64,
    // What is in flight.
    flying: Flying,
    // From the first event on.
    books: Option<Books>,
    // The bytes of a datagram, and what is shown of them.
    hand: Box<Packet>,
    shown: Vec<u8>,
}

impl<K: Sink + Drop> Recorder<K> {
    /// Nothing was written yet. `NoMemory`: there was no room.
    pub fn open(alloc: Global, sink: K) -> Result<Recorder<K>, NoMemory> {
        Ok(Recorder {
            alloc,
            sink,
            text: Vec::new(alloc),
            stopped: None,
            line: 0,
            clock: 0,
            flying: Flying::new(alloc),
            books: None,
            hand: room(alloc)?,
            shown: Vec::new(alloc),
        })
    }

    /// The sink.
    pub fn into_sink(self) -> K {
        self.sink
    }

    /// Writes how the run ended: its status, and what is said of it where it is not 0. `WriteFault`: that, or something before it,
    /// could not be written. `NoMemory`: there was no room for it.
    pub fn close(&mut self, status: u8, message: &[u8]) -> Result<(), Ending>
        ensures { IfErr result (λ e. (e ≡ Ending.WriteFault) ⊎ (e ≡ Ending.NoMemory)) }
    {
        if let Some(Stopped::WriteFault) = self.stopped {
            return Err(Ending::WriteFault);
        }
        if put_end(&mut self.text, self.clock, status, message).is_err() {
            return Err(Ending::NoMemory);
        }
        match write_all(&mut self.sink, self.text.as_slice()) {
            Ok(()) => Ok(()),
            Err(_) => Err(Ending::WriteFault),
        }
    }

    /// How the run ends because of its events: `WriteFault` where one could not be written, `NoMemory` where there was no room for one,
    /// and `None` where all is well.
    pub(crate) fn stop(&self) -> Option<Ending>
        ensures { IfSome result (λ e. (e ≡ Ending.WriteFault) ⊎ (e ≡ Ending.NoMemory)) }
    {
        match self.stopped {
            Some(Stopped::WriteFault) => Some(Ending::WriteFault),
            Some(Stopped::NoMemory) => Some(Ending::NoMemory),
            None => None,
        }
    }

    // Stops where memory ran out.
    pub(crate) fn note(&mut self, put: Result<(), NoMemory>) {
        if put.is_err() {
            self.stopped = Some(Stopped::NoMemory);
        }
    }

    pub(crate) fn is_going(&self) -> bool {
        self.stopped.is_none()
    }

    // Writes what waits.
    fn flush(&mut self) {
        if write_all(&mut self.sink, self.text.as_slice()).is_err() {
            self.stopped = Some(Stopped::WriteFault);
        }
        self.text.clear();
    }

    // Writes what waits, if it is much.
    fn flush_much(&mut self) {
        if self.text.len() >= MOST_WAITING {
            self.flush();
        }
    }

    // A line was taken. Of blank lines and comments nothing is written.
    pub(crate) fn show_line(&mut self, line: &[u8]) -> Result<(), NoMemory> {
        self.line = self.line.saturating_add(1);
        if is_empty(line) {
            return Ok(());
        }
        put_line(&mut self.text, self.clock, self.line, line)
    }

    // The event of a line is next. Before the first the books are written that something is left over in.
    pub(crate) fn show_next<R: Router + Drop>(
        &mut self,
        world: &World<R>,
        line: &[u8],
    ) -> Result<(), NoMemory> {
        if self.books.is_none() {
            self.books = Some(Books::open(self.alloc, world.routing())?);
            self.show_books(world)?;
        }
        self.show_line(line)
    }

    // A datagram was delivered.
    pub(crate) fn show_delivered<R: Router + Drop>(
        &mut self,
        world: &World<R>,
        place: usize,
        heard: Heard,
    ) -> Result<(), NoMemory> {
        let Some((id, end)) = self.flying.take(place) else {
            return Ok(());
        };
        put_delivered(&mut self.text, self.clock, id, name_of(world, end), heard)?;
        let node = world.routing().node_of(end);
        self.touch(node);
        self.show_sent(world, From::Node(node))
    }

    // Time passed.
    pub(crate) fn show_waited<R: Router + Drop>(
        &mut self,
        world: &World<R>,
        ms: u32,
    ) -> Result<(), NoMemory> {
        self.clock = self.clock.saturating_add(u64::from(ms));
        self.touch_all();
        self.show_sent(world, From::Anyone)
    }

    // A round is over.
    pub(crate) fn show_round<R: Router + Drop>(
        &mut self,
        world: &World<R>,
        done: u32,
        all: u32,
    ) -> Result<(), NoMemory> {
        put_round(&mut self.text, self.clock, done, all)?;
        self.show_stand(world)
    }

    // An event happened, and wrote this.
    pub(crate) fn show_happened<R: Router + Drop>(
        &mut self,
        world: &World<R>,
        event: &Event,
        text: &[u8],
    ) -> Result<(), NoMemory> {
        match event {
            Event::Lose { place } => self.show_lost(world, *place)?,
            Event::Again { place } => self.show_copied(world, *place)?,
            Event::Inject { .. } => self.show_sent(world, From::Nobody)?,
            Event::Local { node, .. } => {
                self.touch(*node);
                self.show_sent(world, From::Node(*node))?
            }
            Event::Clear { node } => self.touch(*node),
            Event::Reroute { .. } => {
                self.touch_all();
                self.show_sent(world, From::Anyone)?
            }
            Event::Report { .. } | Event::Flags | Event::Adverts => put_report(
                &mut self.text,
                self.clock,
                text,
            )?,
            _ => {}
        }
        self.show_stand(world)
    }

    fn touch(&mut self, node: u16) {
        if let Some(books) = &mut self.books {
            books.touch(node);
        }
    }

    fn touch_all(&mut self) {
        if let Some(books) = &mut self.books {
            books.touch_all();
        }
    }

    // The datagrams that went into flight since.
    fn show_sent<R: Router + Drop>(
        &mut self,
        world: &World<R>,
        from: From,
    ) -> Result<(), NoMemory> {
        for place in self.flying.len()..world.in_flight() {
            self.show_one_sent(world, from, place)?;
        }
        self.flush_much();
        Ok(())
    }

    // The datagram at a place went into flight.
    fn show_one_sent<R: Router + Drop>(
        &mut self,
        world: &World<R>,
        from: From,
        place: usize,
    ) -> Result<(), NoMemory> {
        let Some((end, dst)) = world.look(place, &mut self.hand) else {
            return Ok(());
        };
        let id = self.flying.add(end)?;
        let bytes = self.hand.bytes();
        let read = decode(bytes);
        let sender = match sender_of(world.routing(), from, end, &read) {
            Some(sender) => Some(name_of(world, sender)),
            None => None,
        };
        put_went(&mut self.text, self.clock, id, sender, name_of(world, end))?;
        self.shown.clear();
        let kind = put_shown(&mut self.shown, &read)?;
        put_datagram(
            &mut self.text,
            dst,
            kind_word(kind),
            bytes,
            self.shown.as_slice(),
        )
    }

    // The datagram at a place, from 1, was lost, if one was there.
    fn show_lost<R: Router + Drop>(
        &mut self,
        world: &World<R>,
        place: u32,
    ) -> Result<(), NoMemory> {
        if place == 0 || self.flying.len() <= world.in_flight() {
            return Ok(());
        }
        let Some((id, _)) = self.flying.take((place - 1) as usize) else {
            return Ok(());
        };
        put_lost(&mut self.text, self.clock, id)
    }

    // The datagram at a place, from 1, was put in flight once more, if one was there.
    fn show_copied<R: Router + Drop>(
        &mut self,
        world: &World<R>,
        place: u32,
    ) -> Result<(), NoMemory> {
        if place == 0 || world.in_flight() <= self.flying.len() {
            return Ok(());
        }
        let Some((of, end)) = self.flying.at((place - 1) as usize) else {
            return Ok(());
        };
        let id = self.flying.add(end)?;
        put_copied(&mut self.text, self.clock, id, of)
    }

    // How the network stands, where that was not written.
    fn show_stand<R: Router + Drop>(&mut self, world: &World<R>) -> Result<(), NoMemory> {
        self.show_books(world)?;
        put_flying(&mut self.text, self.clock, &mut self.flying)?;
        self.flush();
        Ok(())
    }

    // The books that changed.
    fn show_books<R: Router + Drop>(&mut self, world: &World<R>) -> Result<(), NoMemory> {
        match &mut self.books {
            Some(books) => books.put_changed(world, self.clock, &mut self.text),
            None => Ok(()),
        }
    }
}

// Whether a line has no word, or is a comment.
fn is_empty(line: &[u8]) -> bool {
    if let Some(b'#') = line.first() {
        return true;
    }
    for byte in line {
        if *byte != b' ' {
            return false;
        }
    }
    true
}
