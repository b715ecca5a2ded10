//! A source and a sink in memory that never fail.
ghost use Rattle.std.specs.Prelude.{◌≡◌, ◌<◌, ◌+◌, ℕ, length, take, drop, min, Some, None, Ok, IfOk, OnOk};
ghost use Rattle.std.specs.Io.{ReadsAtMost, WritesAtMost};
ghost use Rattle.std.specs.Io.KnownBytes.{ReadConsumes, WriteAppends};
ghost use Rattle.byte_streams.specs.Faults.{last_count, Rose, HasCause};

use crate::streams::{Failed, Sink, Source};
use std::marker::Model;

/// A source of bytes in memory that never fails.
#[derive(Drop)]
pub struct PlainSource {
    bytes: Vec<u8>,
    at: usize,
}

impl Model for PlainSource {
    ghost use Rattle.std.specs.Prelude.{◌≤◌, drop, List, ℕ, vec_len};

    ghost Value = { List ℕ };

    ghost view = { λ s. drop s.at s.bytes.items };

    ghost invariant = { λ s. s.at ≤ vec_len s.bytes };
}

impl PlainSource {
    /// A source of these bytes.
    pub fn new(bytes: Vec<u8>) -> PlainSource
        ensures { result ≡ bytes.items }
    {
        PlainSource { bytes, at: 0 }
    }
}

impl Source for PlainSource {
    ghost left = { λ s. Some s };

    ghost faults = { λ _. 0 };

    /// Gives as many bytes as are left and the buffer has room for.
    fn take(&mut self, buf: &mut [u8]) -> Result<usize, Failed>
        ensures bound { ReadsAtMost result buf.new }
        ensures bytes { ReadConsumes (Some self.old) (Some self.new) result buf.new }
        ensures cause { HasCause 0 0 result }
        ensures no_fault { OnOk result (◌≡◌ {A = ℕ} 0 0) }
        ensures count { result ≡ Ok (min (length buf.old) (length self.old)) }
        ensures given { IfOk result (λ n. take n buf.new ≡ take n self.old) }
        ensures rest { IfOk result (λ n. drop n buf.new ≡ drop n buf.old) }
        ensures left { IfOk result (λ n. self.new ≡ drop n self.old) }
    {
        let count = copy_front(&self.bytes[self.at..], buf, usize::MAX);
        self.at += count;
        Ok(count)
    }
}

/// A sink that takes every piece whole, never fails, and keeps only how many bytes it took.
#[derive(Drop)]
pub struct PlainSink {
    count: u64,
}

impl Model for PlainSink {
    ghost use Rattle.std.specs.Prelude.{ℕ};

    ghost Value = { ℕ };

    ghost view = { λ s. s.count };
}

impl PlainSink {
    /// A sink that took nothing yet.
    pub fn new() -> PlainSink
        ensures { result ≡ 0 }
    {
        PlainSink { count: 0 }
    }

    /// How many bytes it took, at most 2^64 - 1.
    pub fn count(&self) -> u64
        ensures { result ≡ self.now }
    {
        self.count
    }
}

impl Sink for PlainSink {
    ghost holds = { λ _. None };

    ghost faults = { λ _. 0 };

    /// Takes these bytes whole, and keeps their number alone.
    fn give(&mut self, bytes: &[u8]) -> Result<usize, Failed>
        ensures bound { WritesAtMost result bytes.now }
        ensures bytes { WriteAppends None None result bytes.now }
        ensures nothing { IfOk result (λ n. n ≡ 0 → 0 < length bytes.now → Rose 0 0) }
        ensures cause { HasCause 0 0 result }
        ensures no_fault { IfOk result (λ n. 0 < n → ◌≡◌ {A = ℕ} 0 0) }
        ensures whole { result ≡ Ok (length bytes.now) }
        ensures count { self.new ≡ min (self.old + length bytes.now) last_count }
    {
        self.count = self.count.saturating_add(bytes.len() as u64);
        Ok(bytes.len())
    }
}

/// Copies the front of `from` to the front of the buffer: as much as there is, as fits, and as `most` allows.
pub(crate) fn copy_front(from: &[u8], buf: &mut [u8], most: usize) -> usize
    ensures count { result ≡ min (min (length buf.new) (length from.now)) most }
    ensures front { take result buf.new ≡ take result from.now }
    ensures rest { drop result buf.new ≡ drop result buf.old }
{
    let count = buf.len().min(from.len()).min(most);
    buf[..count].copy_from_slice(&from[..count]);
    count
}
