// A line of which no LF has come.

ghost use Rattle.std.specs.Prelude.{◌≡◌, ◌≤◌, [], ◌++◌, ◌-◌, IfOk, length, take, vec_len, vec_capacity};
ghost use Rattle.commands.specs.BatchLine.{IsUnbroken};

use crate::batch_line::LONGEST_LINE;
use crate::reply_text::append_within;
use std::alloc::{AllocError, Global};
use std::marker::Model;

// One byte more than the longest line that is read: that a line is too long stays known.
const HELD: usize = LONGEST_LINE + 1;

/// The front of a line of which no LF has come: 65,537 bytes of it at most.
#[derive(Drop)]
pub struct PendingLine {
    bytes: Vec<u8>,
}

impl Model for PendingLine {
    ghost use Rattle.std.specs.Prelude.{List, ℕ, ◌≤◌, length, vec_len, vec_capacity};
    ghost use Rattle.commands.specs.BatchLine.{IsUnbroken};

    ghost Value = { List ℕ };

    ghost view = { λ p. p.bytes.items };

    ghost invariant = { λ p. IsUnbroken p.bytes.items
        × (vec_len p.bytes ≤ 65537) × (65537 ≤ vec_capacity p.bytes) };
}

impl PendingLine {
    /// An empty line, with room for all that it may hold.
    pub fn new(alloc: Global) -> Result<PendingLine, AllocError>
        ensures empty { IfOk result (λ p. p ≡ []) }
    {
        Ok(PendingLine {
            bytes: Vec::with_capacity(alloc, HELD)?,
        })
    }

    /// Puts bytes behind the line, as far as it is held. It has no refusal.
    pub fn keep(&mut self, bytes: &[u8])
        requires { IsUnbroken bytes.now }
        ensures line { self.new ≡ take 65537 (self.old ++ bytes.now) }
        ensures unbroken { IsUnbroken self.old }
    {
        append_held(&mut self.bytes, bytes);
    }

    /// Begins the next line.
    pub fn clear(&mut self)
        ensures empty { self.new ≡ [] }
    {
        self.bytes.clear();
    }

    /// The bytes read so far: no LF among them, and at most one more than the longest line has.
    pub fn as_bytes(&self) -> &[u8]
        ensures line { result.now ≡ self.now }
        ensures unbroken { IsUnbroken self.now }
        ensures held { length self.now ≤ 65537 }
    {
        self.bytes.as_slice()
    }
}

/// Puts as many of the bytes behind a line as it has room for.
fn append_held(line: &mut Vec<u8>, bytes: &[u8])
    requires held { vec_len line.old ≤ 65537 }
    requires room { 65537 ≤ vec_capacity line.old }
    ensures items { line.new.items ≡ take 65537 (line.old.items ++ bytes.now) }
    ensures held { vec_len line.new ≤ 65537 }
    ensures room { 65537 ≤ vec_capacity line.new }
{
    append_within(line, front(bytes, HELD - line.len()));
}

/// The first bytes, as many as `most`, or all where they are fewer.
fn front(bytes: &[u8], most: usize) -> &[u8]
    ensures front { result.now ≡ take most bytes.now }
    ensures length { length result.now ≤ most }
{
    if bytes.len() < most {
        bytes
    } else {
        &bytes[..most]
    }
}
