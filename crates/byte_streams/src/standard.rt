//! A source over a reader and a sink over a writer, as standard input and output are. They tell of the bytes what the
//! reader and the writer tell: nothing where it is a file or a terminal, since what that gives or takes is the outside's.
ghost use Rattle.std.specs.Prelude.{◌≡◌, ◌<◌, ◌==◌, ◌&&◌, if◌then◌else◌, nat_lt, length, IfOk, OnOk, OnErr};
ghost use Rattle.std.specs.Io.{ReadsAtMost, WritesAtMost};
ghost use Rattle.std.specs.Io.KnownBytes.{ReadConsumes, WriteAppends};
ghost use Rattle.byte_streams.specs.Faults.{one_more, Rose, HasCause};

use crate::streams::{Failed, Sink, Source};
use std::io::{Read, Write};
use std::marker::Model;

/// A source over a reader, as standard input. Contracts see the bytes that the reader still gives, where they are known,
/// and how many of its reads ended in an error.
#[derive(Drop)]
pub struct StdSource<R: Read> {
    inner: R,
    faults: u64,
}

impl<R: Read> Model for StdSource<R> {
    ghost use Rattle.byte_streams.specs.Devices.{Intake};

    ghost Value = { Intake };

    ghost view = { λ s. record { left = R.remaining s.inner; faults = s.faults } };
}

impl<R: Read> StdSource<R> {
    /// The source over this reader.
    pub fn new(inner: R) -> StdSource<R>
        ensures { result ≡ record { left = R.remaining inner; faults = 0 } }
    {
        StdSource { inner, faults: 0 }
    }
}

impl<R: Read> Source for StdSource<R> {
    ghost left = { λ s. s.left };

    ghost faults = { λ s. s.faults };

    /// Reads once. An error raises the count of faults.
    fn take(&mut self, buf: &mut [u8]) -> Result<usize, Failed>
        ensures bound { ReadsAtMost result buf.new }
        ensures bytes { ReadConsumes self.old.left self.new.left result buf.new }
        ensures cause { HasCause self.old.faults self.new.faults result }
        ensures no_fault { OnOk result (self.new.faults ≡ self.old.faults) }
        ensures failed { OnErr result (self.new.faults ≡ one_more self.old.faults) }
    {
        match self.inner.read(buf) {
            Ok(count) => Ok(count),
            Err(_) => {
                self.faults = self.faults.saturating_add(1);
                Err(Failed)
            }
        }
    }
}

/// A sink over a writer, as standard output. Contracts see the bytes that the writer holds, where they are known, and how
/// many of its writes ended in an error, or took nothing of a piece.
#[derive(Drop)]
pub struct StdSink<W: Write> {
    inner: W,
    faults: u64,
}

impl<W: Write> Model for StdSink<W> {
    ghost use Rattle.byte_streams.specs.Devices.{Outlet};

    ghost Value = { Outlet };

    ghost view = { λ s. record { holds = W.contents s.inner; faults = s.faults } };
}

impl<W: Write> StdSink<W> {
    /// The sink over this writer.
    pub fn new(inner: W) -> StdSink<W>
        ensures { result ≡ record { holds = W.contents inner; faults = 0 } }
    {
        StdSink { inner, faults: 0 }
    }
}

impl<W: Write> Sink for StdSink<W> {
    ghost holds = { λ s. s.holds };

    ghost faults = { λ s. s.faults };

    /// Writes once. An error raises the count of faults, and so does a write that takes nothing of a piece.
    fn give(&mut self, bytes: &[u8]) -> Result<usize, Failed>
        ensures bound { WritesAtMost result bytes.now }
        ensures bytes { WriteAppends self.old.holds self.new.holds result bytes.now }
        ensures nothing { IfOk result (λ n. n ≡ 0 → 0 < length bytes.now → Rose self.old.faults self.new.faults) }
        ensures cause { HasCause self.old.faults self.new.faults result }
        ensures no_fault { IfOk result (λ n. 0 < n → self.new.faults ≡ self.old.faults) }
        ensures written { IfOk result (λ n. self.new.faults
            ≡ (if n == 0 && nat_lt 0 (length bytes.now) then one_more self.old.faults else self.old.faults)) }
        ensures failed { OnErr result (self.new.faults ≡ one_more self.old.faults) }
    {
        match self.inner.write(bytes) {
            Ok(count) => {
                if count == 0 && !bytes.is_empty() {
                    self.faults = self.faults.saturating_add(1);
                }
                Ok(count)
            }
            Err(_) => {
                self.faults = self.faults.saturating_add(1);
                Err(Failed)
            }
        }
    }
}
