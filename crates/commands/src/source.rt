// Where bytes come from.

ghost use Rattle.std.specs.Prelude.{◌≡◌, ◌<◌, ℕ, Bool, List, Option, OnOk, false, is_err};
ghost use Rattle.std.specs.Io.{ReadsAtMost};
ghost use Rattle.std.specs.Io.KnownBytes.{ReadConsumes};

use crate::counted::Counted;
use std::io::{self, Read};

/// A stream of bytes that ends, or fails, after a bounded number of calls.
pub trait Source {
    // The bytes left, where they are known.
    ghost remaining: { Self → Option (List ℕ) };

    // Whether a call has failed.
    ghost has_failed: { Self → Bool };

    // How many calls may still give bytes.
    ghost calls_left: { Self → ℕ };

    /// Puts bytes at the front of `buffer` and answers how many they are: 0 at the end of input,
    /// or where `buffer` is empty. It isn't called once a call has failed.
    fn read(&mut self, buffer: &mut [u8]) -> io::Result<usize>
        requires { has_failed self.old ≡ false }
        ensures bound { ReadsAtMost result buffer.new }
        ensures bytes { ReadConsumes (remaining self.old) (remaining self.new) result buffer.new }
        ensures failure { has_failed self.new ≡ is_err result }
        ensures calls { OnOk result (calls_left self.new < calls_left self.old) };
}

impl<R: Read> Source for Counted<R> {
    ghost remaining = { λ s. R.remaining s.inner };

    ghost has_failed = { λ s. s.has_failed };

    ghost calls_left = { λ s. s.calls_left };

    fn read(&mut self, buffer: &mut [u8]) -> io::Result<usize> {
        if self.calls_left == 0 {
            self.has_failed = true;
            return Err(io::Error::other("too many reads"));
        }
        self.calls_left -= 1;
        let result = self.inner.read(buffer);
        if result.is_err() {
            self.has_failed = true;
        }
        result
    }
}
