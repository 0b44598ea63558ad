//! The files of a history: how they are read, and how a history is saved in their place.
//!
//! The requirements file, the lock of each target and the journal stand in one folder. `SavedFiles` reads them, opens
//! the history that they stand for, and saves another in their place: each file is written whole beside its place,
//! and only when all of them stand are the locks of targets that went removed, and they renamed to their places
//! (`rewrite`, over `disk`). No first save goes through a link to what isn't reqlock's (`links_out`), and no later one overwrites a
//! file that isn't of the history (`standing_lock`). What a save that was stopped has left beside is renamed to its
//! place, or removed (`stopped_save`).
#![tactic(auto)]

mod beside;
mod disk;
pub mod first_inputs;
mod going_locks;
pub mod held;
mod history_folder;
mod links;
mod links_out;
mod lock_names;
mod reading;
mod rewrite;
mod saved_files;
pub mod saved_history;
pub mod standing_lock;
mod still_folder;
mod stopped_save;

pub use crate::beside::Beside;
pub use crate::disk::Disk;
pub use crate::history_folder::HistoryFolder;
pub use crate::links_out::link_out;
pub use crate::rewrite::Rewrite;
pub use crate::saved_files::SavedFiles;
pub use crate::still_folder::StillFolder;
pub use crate::stopped_save::{end_left, remove_left};
