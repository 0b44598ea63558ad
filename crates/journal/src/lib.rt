//! The history of a requirements file and its locks: edits, undo and redo over whole states.
//!
//! A history is seen as the list of its states and a cursor, and each command is one step of it.
//! Each lock in it is the best solution of its lines, by whatever resolver it was found.
//!
//! A session in which an edit is undone:
//!
//! ```rust
//! let mut session = Session::init(alloc, lines, targets, index, &Learning)?;
//! let add = Edit::Add(Text::copy_of(alloc, "d  # new")?);
//! let added = session.apply(alloc, &Command::Edit(add, Pool::whole(index)), &Learning);
//! let undone = session.apply(alloc, &Command::Undo, &Learning);
//! Ok(added == Reply::Done(1) && undone == Reply::Done(0))
//! ```
#![tactic(auto)]

mod change_history;
mod commands;
mod history;
mod history_reader;
mod journal;
pub mod laws;
mod places;
mod runs;
mod saved;
mod session;
mod told;
pub mod version_one;
mod whole;

pub use crate::change_history::ChangeHistory;
pub use crate::commands::{Command, Reply};
pub use crate::history::History;
pub use crate::journal::Journal;
pub use crate::runs::{apply, run};
pub use crate::saved::Saved;
pub use crate::session::Session;
pub use crate::told::Told;
pub use crate::whole::WholeHistory;
pub use edits::{
    Change, Edit, Environment, Learning, Plain, Pool, Refusal, ReqFile, Resolver, SavedFile,
    Snapshot, State, Target, TargetName, Targets,
};
pub use lists::{Seq, Text};
