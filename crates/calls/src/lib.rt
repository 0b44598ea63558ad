//! What the subcommands share: the call that they are done for, the files that each reads, what an edit is made of and chosen from, and
//! what changed between two places of a history.
//!
//! A subcommand is given a `Call` and prints to its output.
#![tactic(auto)]

mod asked_edits;
mod call;
mod difference;
mod first_files;
mod pool;
mod read_edit;
mod replacement;
mod retargeting;
pub mod subcommand_files;

pub use crate::asked_edits::{asked_edit, asked_edit_to_save};
pub use crate::call::Call;
pub use crate::difference::difference_between;
pub use crate::first_files::first_paths;
pub use crate::pool::pool_of;
pub use crate::read_edit::{ReadEdit, UnsavedEdit};
