// What is told of a history: its locks with the lines that ask for them, and its steps.

use edits::{Change, ReqFile, Target};

/// The locks of a history, and the lines that ask for what they have.
#[derive(Clone, Copy)]
pub struct ShownLocks<'a> {
    pub lines: &'a ReqFile,
    pub targets: &'a [Target],
    /// Whether the requirements file was changed since it was saved, so that the locks were made of other lines.
    pub has_other_lines: bool,
}

/// The steps of a history.
#[derive(Clone, Copy)]
pub struct ShownSteps<'a> {
    /// The place of the present state.
    pub cursor: usize,
    /// The change of each step, from the first on.
    pub changes: &'a [Change],
    /// Whether the requirements file was changed since it was saved.
    pub has_other_lines: bool,
}
