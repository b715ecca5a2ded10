//! Standard input that gives no more once standard output has failed.
ghost use Rattle.std.specs.Prelude.{◌≡◌};

use std::cell::Cell;
use std::io::{self, ErrorKind, Read, Write};

// So many bytes of input are taken at a time, those of a few lines: what was taken is run, also where output failed meanwhile.
const MOST_AT_ONCE: usize = 64;

/// A writer that notes whether a call failed, or took nothing.
#[derive(Drop)]
pub(crate) struct Output<'a, D> {
    inner: D,
    has_failed: &'a Cell<bool>,
}

impl<'a, D> Output<'a, D> {
    /// The writer, and where a failure is noted.
    pub(crate) fn new(inner: D, has_failed: &'a Cell<bool>) -> Output<'a, D> {
        Output { inner, has_failed }
    }
}

impl<'a, D: Write> Write for Output<'a, D> {
    ghost contents = { λ s. D.contents s.inner };

    fn write(&mut self, buf: &[u8]) -> io::Result<usize> {
        match self.inner.write(buf) {
            Ok(count) => {
                if count < buf.len() && count == 0 {
                    self.has_failed.set(true);
                }
                Ok(count)
            }
            Err(error) => {
                self.has_failed.set(true);
                Err(error)
            }
        }
    }

    fn flush(&mut self) -> io::Result<()> {
        self.inner.flush()
    }
}

/// A reader that fails once a writer did, and else reads a few lines at a time.
#[derive(Drop)]
pub(crate) struct Input<'a, D> {
    inner: D,
    has_failed: &'a Cell<bool>,
}

impl<'a, D> Input<'a, D> {
    /// The reader, and where the failure of a writer is noted.
    pub(crate) fn new(inner: D, has_failed: &'a Cell<bool>) -> Input<'a, D> {
        Input { inner, has_failed }
    }
}

impl<'a, D: Read> Read for Input<'a, D> {
    ghost remaining = { λ s. D.remaining s.inner };

    fn read(&mut self, buf: &mut [u8]) -> io::Result<usize> {
        if self.has_failed.get() {
            return Err(io::Error::from(ErrorKind::BrokenPipe));
        }
        let most = buf.len().min(MOST_AT_ONCE);
        self.inner.read(&mut buf[..most])
    }
}
