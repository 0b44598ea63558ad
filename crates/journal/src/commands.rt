// What a history is asked for, and what it answers.

use edits::{Edit, Pool, Refusal};

/// What a history is asked for. An edit comes with what the versions of its locks are chosen from.
#[derive(Drop)]
pub enum Command<'a> {
    Edit(Edit, Pool<'a>),
    Undo,
    Redo,
}

/// The answer to a command.
#[derive(Debug, Drop, PartialEq, Eq)]
pub enum Reply {
    /// It was done, and the cursor stands here now.
    Done(usize),
    /// The edit leads to the state that is there.
    Same,
    /// Nothing was changed.
    Refused(Refusal),
}
