// An edit that files are read for, with the history that it is made in.

use edits::{Edit, Snapshot};
use files::saved_history::SavedHistory;
use journal::Session;

/// The history that an edit is made in, and the edit.
#[derive(Drop)]
pub struct ReadEdit {
    pub history: SavedHistory,
    pub edit: Edit,
}

/// The same without the files of the history, where nothing is to be saved.
#[derive(Drop)]
pub struct UnsavedEdit {
    pub session: Session,
    pub snapshot: Snapshot,
    pub edit: Edit,
}
