//! Edits of a requirements file with its lock: which are refused, and to which state each other one leads.
//!
//! An edit of a state over an index, and the change that takes it back:
//!
//! ```rust
//! let line = Text::copy_of(alloc, "d  # new")?;
//! let edited = edit(alloc, state, &Edit::Add(line), &Pool::whole(index), &Learning)?;
//! let back = edited.change.inverse(alloc)?;
//! Ok(back.apply(alloc, &edited.state)?.is_some())
//! ```
#![tactic(auto)]

mod addition;
mod constraint;
mod edit_result;
mod exchanged_line;
mod first_targets;
mod kept_versions;
pub mod laws;
mod lines_on_name;
mod pins;
mod questions;
mod removal;
mod replace_laws;
mod request;
mod retargeting;
mod upgrade;

pub use crate::edit_result::{edit, init, init_keeping, problem_after};
pub use crate::exchanged_line::with_line_exchanged;
pub use crate::first_targets::FirstTargets;
pub use crate::pins::TargetPins;
pub use crate::questions::{problem_keeping, problems_of_init, problems_with};
pub use crate::request::{Edit, Edited};
pub use changes::{Change, DigestChange, EntryChange, Splice, TargetChange, difference};
pub use pep508::{Cause, Environment, Fault, Line, Name, ReqFile, Requirement};
pub use pylock::{DistributionFile, Entry, Lock};
pub use resolve::{Learning, Plain, Problem, Resolver};
pub use snapshot::{Release, Snapshot};
pub use states::{Pool, Refusal, SavedFile, State, Target, TargetName, Targets, first_unfit};
