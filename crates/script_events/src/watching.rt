//! What is recorded of each step.

use crate::recorder::Recorder;
use byte_streams::Sink;
use network_model::Event;
use network_replay::{Router, Watch, World};
use router_rules::Heard;

impl<K: Sink + Drop> Watch for Recorder<K> {
    ghost saw = { λ w ss. Unit {0} };

    fn round_over<R: Router + Drop>(&mut self, world: &World<R>, done: u32, all: u32) {
        if self.is_going() {
            let put = self.show_round(world, done, all);
            self.note(put);
        }
    }

    fn delivered<R: Router + Drop>(&mut self, world: &World<R>, place: usize, heard: Heard) {
        if self.is_going() {
            let put = self.show_delivered(world, place, heard);
            self.note(put);
        }
    }

    fn waited<R: Router + Drop>(&mut self, world: &World<R>, ms: u32) {
        if self.is_going() {
            let put = self.show_waited(world, ms);
            self.note(put);
        }
    }

    fn line_taken(&mut self, line: &[u8]) {
        if self.is_going() {
            let put = self.show_line(line);
            self.note(put);
        }
    }

    fn happens<R: Router + Drop>(&mut self, world: &World<R>, line: &[u8]) {
        if self.is_going() {
            let put = self.show_next(world, line);
            self.note(put);
        }
    }

    fn happened<R: Router + Drop>(&mut self, world: &World<R>, event: &Event, text: &[u8]) {
        if self.is_going() {
            let put = self.show_happened(world, event, text);
            self.note(put);
        }
    }
}
