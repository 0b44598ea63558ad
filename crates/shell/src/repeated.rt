// Writes that a signal interrupts.

ghost use Rattle.std.specs.Io.{WritesAtMost};
ghost use Rattle.std.specs.Io.KnownBytes.{WriteAppends};

use std::io::{self, ErrorKind, Write};

/// A writer of which each write that a signal interrupts is done again, so that no reply is told to have failed which the
/// next write gives.
#[derive(Drop)]
pub struct Repeated<W> {
    inner: W,
}

impl<W> Repeated<W> {
    /// Over a writer.
    pub fn new(inner: W) -> Repeated<W> {
        Repeated { inner }
    }
}

impl<W: Write> Write for Repeated<W> {
    ghost contents = { λ w. W.contents w.inner };

    fn write(&mut self, buffer: &[u8]) -> io::Result<usize> {
        written(&mut self.inner, buffer)
    }

    fn flush(&mut self) -> io::Result<()> {
        self.inner.flush()
    }
}

/// One write, which is done again where a signal interrupts it.
fn written<W: Write>(writer: &mut W, buffer: &[u8]) -> io::Result<usize>
    ensures bound { WritesAtMost result buffer.now }
    ensures bytes { WriteAppends (W.contents writer.old) (W.contents writer.new) result buffer.now }
{
    for _ in 0..u64::MAX {
        match writer.write(buffer) {
            Ok(count) => return Ok(count),
            Err(error) => {
                if error.kind() != ErrorKind::Interrupted {
                    return Err(error);
                }
            }
        }
    }
    Err(io::Error::from(ErrorKind::Interrupted))
}
