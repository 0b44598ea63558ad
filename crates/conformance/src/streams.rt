// A reader and a writer that do a few bytes a call, and stop behind so many calls.

use std::io;

/// A reader that gives its bytes in pieces. Behind the last call that is left it fails, or gives an empty piece.
#[derive(Drop)]
pub struct Pieces<'a> {
    pub bytes: &'a [u8],
    pub most: usize,
    pub calls_left: usize,
    pub fails: bool,
    /// How many such calls were made.
    pub stops: usize,
}

impl io::Read for Pieces<'_> {
    fn read(&mut self, buffer: &mut [u8]) -> io::Result<usize> {
        if self.calls_left == 0 {
            self.stops = self.stops.saturating_add(1);
            return if self.fails {
                Err(io::Error::other("broken"))
            } else {
                Ok(0)
            };
        }
        self.calls_left -= 1;
        let count = self.bytes.len().min(buffer.len()).min(self.most);
        let (front, behind) = self.bytes.split_at(count);
        buffer[..count].copy_from_slice(front);
        self.bytes = behind;
        Ok(count)
    }
}

/// A writer that takes a few bytes a call. Behind the last call that is left it fails, or takes none.
#[derive(Drop)]
pub struct Narrow {
    pub taken: Vec<u8>,
    pub most: usize,
    pub calls_left: usize,
    pub fails: bool,
    /// How many such calls were made.
    pub stops: usize,
}

impl io::Write for Narrow {
    fn write(&mut self, buffer: &[u8]) -> io::Result<usize> {
        if self.calls_left == 0 {
            self.stops = self.stops.saturating_add(1);
            return if self.fails {
                Err(io::Error::other("full"))
            } else {
                Ok(0)
            };
        }
        self.calls_left -= 1;
        let count = buffer.len().min(self.most);
        self.taken.extend_from_slice(&buffer[..count])?;
        Ok(count)
    }

    fn flush(&mut self) -> io::Result<()> {
        Ok(())
    }
}
