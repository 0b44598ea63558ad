// Where bytes go.

ghost use Rattle.std.specs.Prelude.{◌≡◌, ℕ, Bool, List, Option, false};
ghost use Rattle.std.specs.Io.{WritesAtMost};
ghost use Rattle.std.specs.Io.KnownBytes.{WriteAppends};
ghost use Rattle.commands.specs.Streams.{is_stuck};

use crate::counted::Counted;
use std::io::{self, Write};

/// A stream that takes bytes.
pub trait Sink {
    // The bytes taken so far, where they are known.
    ghost contents: { Self → Option (List ℕ) };

    // Whether a call has failed. A call that took no bytes counts as failed.
    ghost has_failed: { Self → Bool };

    /// Takes bytes from the front of `buffer` and answers how many they are. It isn't called once a
    /// call has failed.
    fn write(&mut self, buffer: &[u8]) -> io::Result<usize>
        requires { has_failed self.old ≡ false }
        ensures bound { WritesAtMost result buffer.now }
        ensures bytes { WriteAppends (contents self.old) (contents self.new) result buffer.now }
        ensures failure { has_failed self.new ≡ is_stuck result };
}

impl<W: Write> Sink for Counted<W> {
    ghost contents = { λ s. W.contents s.inner };

    ghost has_failed = { λ s. s.has_failed };

    fn write(&mut self, buffer: &[u8]) -> io::Result<usize> {
        let result = self.inner.write(buffer);
        match &result {
            Ok(0) | Err(_) => self.has_failed = true,
            Ok(_) => {}
        }
        result
    }
}
