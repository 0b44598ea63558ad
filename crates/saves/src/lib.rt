//! What the subcommands do that save: a first lock, an edit, a step, a shorter history, a batch; and their rehearsals, which save nothing.
#![tactic(auto)]

mod batch;
mod dry_run;
mod edit;
mod forget;
mod init;
pub mod laws;
mod near_names;
mod saved_reply;
mod standing_lock;

pub use crate::batch::{run_batch, try_commands};
pub use crate::dry_run::{rehearse_edit, rehearse_step};
pub use crate::edit::{edit_once, step_once};
pub use crate::forget::{forget_once, rehearse_forget};
pub use crate::init::{begin_history, rehearse_init};
pub use crate::near_names::add_near_names;
