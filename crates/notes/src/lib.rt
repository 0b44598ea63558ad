//! What `reqlock` tells beside a reply: what is known of a refused edit and of files that are others, what an edit moved, what pip
//! would warn of, and what to type next.
#![tactic(auto)]

mod bad_text_steps;
mod clause_notes;
mod file_form;
mod lacking;
mod lacking_text;
mod lacks;
mod line_notes;
mod lost_extras;
mod moved_text;
mod near_locked;
mod near_variable;
mod next_steps;
mod refusal_details;
mod refusal_steps;
mod release_notes;

pub use crate::bad_text_steps::add_named_step;
pub use crate::clause_notes::with_commas;
pub use crate::file_form::{FileForm, conflict_line, form_of};
pub use crate::lacks::Lacks;
pub use crate::line_notes::add_bad_lines;
pub use crate::moved_text::{AppliedEdit, add_moved, has_moved};
pub use crate::near_locked::add_near_locked;
pub use crate::next_steps::{
    BadEnvironment, ENVIRONMENT, INDEX, IndexMaker, IndexPlan, add_environment_command,
    add_environment_note, add_index_note, is_address,
};
pub use crate::refusal_details::{RefusedEdit, add_lacking, add_question, add_refusal_details};
pub use crate::refusal_steps::{add_newest_releases, add_refusal_steps};
pub use crate::release_notes::{add_change_notes, add_lock_notes};
