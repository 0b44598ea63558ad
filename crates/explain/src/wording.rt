// How sentences name lines, how much they leave out, and how wide they are.

use crate::changed_lines::ChangedLines;

/// Whether sentences leave something out where there is much to tell.
#[derive(Clone, Copy, PartialEq, Eq)]
pub enum Extent {
    /// A chain of steps is told by its first, its last and how many lie between; many lines, releases or requirements by a few
    /// of them, by their ends or by how many they are.
    Short,
    /// Each of them is told.
    Long,
}

impl Extent {
    /// How many are told at most, given how many in short.
    pub fn most(self, in_short: usize) -> usize {
        match self {
            Extent::Short => in_short,
            Extent::Long => usize::MAX,
        }
    }
}

/// How sentences are worded.
#[derive(Clone, Copy)]
pub struct Wording<'a> {
    /// The lines by which they name those of the problem.
    pub lines: ChangedLines<'a>,
    pub extent: Extent,
    /// How many characters a line has at most, unless one word has more.
    pub width: usize,
}
