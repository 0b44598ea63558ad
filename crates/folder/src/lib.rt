//! A folder of files that are replaced together: what its calls do, and what a stop at any moment leaves.
#![tactic(auto)]

mod folder;
pub mod laws;
mod repair;
mod saving;

pub use crate::folder::{Folder, WriteFault};
pub use crate::repair::{Left, clear_names, end_save};
pub use crate::saving::{NewFile, save};
