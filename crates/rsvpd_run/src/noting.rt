//! Devices whose last error is kept.
ghost use Rattle.std.specs.Prelude.{◌≡◌};

use std::io::{self, Read, Write};

/// A device, and where the last error of its calls is kept.
#[derive(Drop)]
pub struct Noting<'a, D> {
    inner: D,
    error: &'a mut Option<io::Error>,
}

impl<'a, D> Noting<'a, D> {
    /// The device, none of whose calls failed yet.
    pub fn new(inner: D, error: &'a mut Option<io::Error>) -> Noting<'a, D> {
        Noting { inner, error }
    }
}

impl<'a, D: Read> Read for Noting<'a, D> {
    ghost remaining = { λ s. D.remaining s.inner };

    fn read(&mut self, buf: &mut [u8]) -> io::Result<usize> {
        match self.inner.read(buf) {
            Ok(count) => Ok(count),
            Err(error) => {
                *self.error = Some(error);
                Err(error)
            }
        }
    }
}

impl<'a, D: Write> Write for Noting<'a, D> {
    ghost contents = { λ s. D.contents s.inner };

    fn write(&mut self, buf: &[u8]) -> io::Result<usize> {
        match self.inner.write(buf) {
            Ok(count) => Ok(count),
            Err(error) => {
                *self.error = Some(error);
                Err(error)
            }
        }
    }

    fn flush(&mut self) -> io::Result<()> {
        self.inner.flush()
    }
}
