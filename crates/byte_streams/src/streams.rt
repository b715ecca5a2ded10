//! Sources and sinks of bytes.
ghost use Rattle.std.specs.Prelude.{◌≡◌, ◌<◌, List, ℕ, length, Option, IfOk, OnOk};
ghost use Rattle.std.specs.Io.{ReadsAtMost, WritesAtMost};
ghost use Rattle.std.specs.Io.KnownBytes.{ReadConsumes, WriteAppends};
ghost use Rattle.byte_streams.specs.Faults.{Rose, HasCause};

/// A source or a sink failed.
#[derive(Clone, Copy, Debug, PartialEq, Eq)]
pub struct Failed;

/// Where bytes come from.
pub trait Source {
    /// The bytes that are left, where it tells them.
    ghost left: { Self → Option (List ℕ) };

    /// How often it failed. The count never falls, and stands still at 2^64 - 1.
    ghost faults: { Self → ℕ };

    /// Moves bytes from the front of what is left to the front of the buffer, and answers how many. With room
    /// in the buffer it answers 0 only where nothing is left, and that ends the input.
    ///
    /// `Failed` comes only where the count of faults rose in this call, or stands at its last value. Nothing was
    /// taken then. The count does not rise in another call.
    fn take(&mut self, buf: &mut [u8]) -> Result<usize, Failed>
        ensures bound { ReadsAtMost result buf.new }
        ensures bytes { ReadConsumes (left self.old) (left self.new) result buf.new }
        ensures cause { HasCause (faults self.old) (faults self.new) result }
        ensures no_fault { OnOk result (faults self.new ≡ faults self.old) };
}

/// Where bytes go.
pub trait Sink {
    /// The bytes that it holds, where it tells them.
    ghost holds: { Self → Option (List ℕ) };

    /// How often it failed, or took nothing of a piece. The count never falls, and stands still at 2^64 - 1.
    ghost faults: { Self → ℕ };

    /// Appends a front of these bytes, and answers its length. It answers 0 to a piece that is not empty only
    /// where the count of faults rose in this call, or stands at its last value.
    ///
    /// `Failed` comes only where the count rose, or stands at its last value. Nothing was appended then. The count does not rise in
    /// a call that appends some.
    fn give(&mut self, bytes: &[u8]) -> Result<usize, Failed>
        ensures bound { WritesAtMost result bytes.now }
        ensures bytes { WriteAppends (holds self.old) (holds self.new) result bytes.now }
        ensures nothing { IfOk result (λ n. n ≡ 0 → 0 < length bytes.now → Rose (faults self.old) (faults self.new)) }
        ensures cause { HasCause (faults self.old) (faults self.new) result }
        ensures no_fault { IfOk result (λ n. 0 < n → faults self.new ≡ faults self.old) };
}
