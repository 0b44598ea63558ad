// Edits of a state, and what an accepted one leads to.

use crate::pins::TargetPins;
use changes::Change;
use lists::{Seq, Text};
use pep508::ReqFile;
use states::{State, Targets};

/// An edit of the requirements file. Names, lines and specifiers are texts that are read when the edit
/// is made.
#[derive(Drop)]
pub enum Edit {
    /// Puts the text behind the other lines. It has no LF and reads as a requirement; a comment may
    /// follow.
    Add(Text),
    /// Takes out the one line of the name, with its ending.
    Remove(Text),
    /// Puts specifiers, the second text, in the place of those in the one line of the name, the first
    /// text. They have no parentheses; where they are blank, the line admits every version.
    Constrain(Text, Text),
    /// Drops the locked versions of these names and resolves again.
    Upgrade(Seq<Text>),
    /// Drops all locked versions and resolves again.
    UpgradeAll,
    /// Resolves again.
    Relock,
    /// Puts the lines of another file in the place of all lines. Of the versions that a target's lock has and
    /// of those that are handed in for the target, of each name, the newest that the index has is kept, or
    /// else the newest.
    Replace(ReqFile, Seq<TargetPins>),
    /// Locks the lines for these targets in the place of those that are there. A target whose name is there
    /// already keeps the versions of its lock. Another one keeps those that are handed in for it, and of the
    /// names that these lack what the targets that were there have locked, where they don't contradict one
    /// another.
    Retarget(Targets, Seq<TargetPins>),
}

/// What an accepted edit leads to.
#[derive(Drop)]
pub struct Edited {
    /// The new state.
    pub state: State,
    /// The change that leads from the old state to the new one.
    pub change: Change,
}
