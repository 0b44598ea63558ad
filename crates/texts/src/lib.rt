//! What `reqlock` prints for people and for scripts, as text: a lock, an entry, a history, what a change did.
#![tactic(auto)]

pub mod check_json;
pub mod diff_json;
pub mod diff_text;
mod entry_fields;
mod entry_json;
pub mod entry_text;
pub mod history_text;
pub mod json_text;
mod line_edit;
pub mod lock_json;
pub mod lock_text;
pub mod log_json;
mod new_lock_text;
mod outdated;
pub mod outdated_text;
mod required_by;
mod requirer_text;
pub mod shown;
mod sign;
mod target_text;
pub mod tree_text;
