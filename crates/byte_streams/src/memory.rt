//! A source and a sink in memory, whose calls fail and fall short as they are told to.
ghost use Rattle.std.specs.Prelude.{◌≡◌, ◌≤◌, ◌<◌, ◌↔◌, [], length, take, drop, Some, IfOk, OnErr, OnOk, IsErr, Contains};
ghost use Rattle.std.specs.Io.{ReadsAtMost, WritesAtMost};
ghost use Rattle.std.specs.Io.KnownBytes.{ReadConsumes, WriteAppends};
ghost use Rattle.byte_streams.specs.Faults.{one_more, Rose, HasCause};
ghost use Rattle.byte_streams.specs.Devices.{given_count, feed_after, feed_after_fault, least_for, taken_count, store_after, store_after_fault};

use crate::plain::copy_front;
use crate::streams::{Failed, Sink, Source};
use rsvp_base::NoMemory;
use std::alloc::Global;
use std::marker::Model;

/// A source of bytes in memory, whose calls fail as they are told to.
#[derive(Drop)]
pub struct MemorySource {
    bytes: Vec<u8>,
    at: usize,
    fail: Vec<u64>,
    most: usize,
    calls: u64,
    faults: u64,
}

impl Model for MemorySource {
    ghost use Rattle.std.specs.Prelude.{◌≤◌, ◌<◌, drop, vec_len};
    ghost use Rattle.byte_streams.specs.Devices.{Feed};

    ghost Value = { Feed };

    ghost view = { λ s. record {
      left = drop s.at s.bytes.items;
      fail = s.fail.items;
      most = s.most;
      calls = s.calls;
      faults = s.faults;
    } };

    ghost invariant = { λ s. (s.at ≤ vec_len s.bytes) × (0 < s.most) };
}

impl MemorySource {
    /// A source of these bytes, which gives at most `most` of them a call. Its calls are numbered from 1; one fails
    /// exactly where its number stands in `fail`.
    pub fn new(bytes: Vec<u8>, fail: Vec<u64>, most: usize) -> MemorySource
        requires { 0 < most }
        ensures { result ≡ record { left = bytes.items; fail = fail.items; most = most; calls = 0; faults = 0 } }
    {
        MemorySource {
            bytes,
            at: 0,
            fail,
            most,
            calls: 0,
            faults: 0,
        }
    }
}

impl Source for MemorySource {
    ghost left = { λ s. Some s.left };

    ghost faults = { λ s. s.faults };

    /// Fails exactly where this call's number was told, and raises the count of faults then. Else it gives as
    /// many bytes as are left, as the buffer has room for and as a call may give.
    fn take(&mut self, buf: &mut [u8]) -> Result<usize, Failed>
        ensures bound { ReadsAtMost result buf.new }
        ensures bytes { ReadConsumes (Some self.old.left) (Some self.new.left) result buf.new }
        ensures cause { HasCause self.old.faults self.new.faults result }
        ensures no_fault { OnOk result (self.new.faults ≡ self.old.faults) }
        ensures fails { IsErr result ↔ Contains self.old.fail (one_more self.old.calls) }
        ensures failed { OnErr result (self.new ≡ feed_after_fault self.old) }
        ensures untouched { OnErr result (buf.new ≡ buf.old) }
        ensures count { IfOk result (λ n. n ≡ given_count self.old (length buf.old)) }
        ensures given { IfOk result (λ n. take n buf.new ≡ take n self.old.left) }
        ensures rest { IfOk result (λ n. drop n buf.new ≡ drop n buf.old) }
        ensures left { IfOk result (λ n. self.new ≡ feed_after self.old n) }
    {
        self.calls = self.calls.saturating_add(1);
        if self.fail.contains(&self.calls) {
            self.faults = self.faults.saturating_add(1);
            return Err(Failed);
        }
        let count = copy_front(&self.bytes[self.at..], buf, self.most);
        self.at += count;
        Ok(count)
    }
}

/// A sink of bytes in memory, whose calls fail and fall short as they are told to.
#[derive(Drop)]
pub struct MemorySink {
    bytes: Vec<u8>,
    room: usize,
    fail: Vec<u64>,
    short: Vec<(u64, usize)>,
    calls: u64,
    faults: u64,
}

impl Model for MemorySink {
    ghost use Rattle.std.specs.Prelude.{◌≤◌, vec_len, vec_capacity};
    ghost use Rattle.byte_streams.specs.Devices.{Store};

    ghost Value = { Store };

    ghost view = { λ s. record {
      bytes = s.bytes.items;
      room = s.room;
      fail = s.fail.items;
      short = s.short.items;
      calls = s.calls;
      faults = s.faults;
    } };

    // A call takes no memory: the room was taken at opening.
    ghost invariant = { λ s. (vec_len s.bytes ≤ s.room) × (s.room ≤ vec_capacity s.bytes) };
}

impl MemorySink {
    /// An empty sink, which takes its room for `room` bytes now. Its calls are numbered from 1; one fails exactly where
    /// its number stands in `fail`, and another takes at most each number that stands beside its own in `short`.
    ///
    /// `NoMemory`: the room could not be had.
    pub fn open(
        alloc: Global,
        room: usize,
        fail: Vec<u64>,
        short: Vec<(u64, usize)>,
    ) -> Result<MemorySink, NoMemory>
        ensures { IfOk result (λ s. s ≡ record {
          bytes = [];
          room = room;
          fail = fail.items;
          short = short.items;
          calls = 0;
          faults = 0;
        }) }
    {
        let bytes = Vec::with_capacity(alloc, room)?;
        Ok(MemorySink {
            bytes,
            room,
            fail,
            short,
            calls: 0,
            faults: 0,
        })
    }

    /// The bytes that it holds.
    pub fn bytes(&self) -> &[u8]
        ensures { result.now ≡ self.now.bytes }
    {
        &self.bytes
    }
}

impl Sink for MemorySink {
    ghost holds = { λ s. Some s.bytes };

    ghost faults = { λ s. s.faults };

    /// Fails exactly where this call's number was told. Else it takes what is given, but at most the room that
    /// is left, and at most what was told of this call. The count of faults rises where it fails, and where it
    /// takes nothing of a piece that is not empty.
    fn give(&mut self, bytes: &[u8]) -> Result<usize, Failed>
        ensures bound { WritesAtMost result bytes.now }
        ensures bytes { WriteAppends (Some self.old.bytes) (Some self.new.bytes) result bytes.now }
        ensures nothing { IfOk result (λ n. n ≡ 0 → 0 < length bytes.now → Rose self.old.faults self.new.faults) }
        ensures cause { HasCause self.old.faults self.new.faults result }
        ensures no_fault { IfOk result (λ n. 0 < n → self.new.faults ≡ self.old.faults) }
        ensures fails { IsErr result ↔ Contains self.old.fail (one_more self.old.calls) }
        ensures failed { OnErr result (self.new ≡ store_after_fault self.old) }
        ensures count { IfOk result (λ n. n ≡ taken_count self.old (length bytes.now)) }
        ensures taken { IfOk result (λ n. self.new ≡ store_after self.old n bytes.now) }
    {
        self.calls = self.calls.saturating_add(1);
        if self.fail.contains(&self.calls) {
            self.faults = self.faults.saturating_add(1);
            return Err(Failed);
        }
        let room = self.room - self.bytes.len();
        let count = least_for(&self.short, self.calls, bytes.len().min(room));
        if count == 0 && !bytes.is_empty() {
            self.faults = self.faults.saturating_add(1);
            return Ok(0);
        }
        let _ = self.bytes.extend_from_slice(&bytes[..count]);
        Ok(count)
    }
}

// The least of `most` and what `short` tells of this call.
fn least_for(short: &[(u64, usize)], call: u64, most: usize) -> usize
    ensures exact { result ≡ least_for short.now call most }
    ensures at_most { result ≤ most }
{
    let mut least = most;
    for (number, taken) in short {
        if *number == call {
            least = least.min(*taken);
        }
    }
    least
}
