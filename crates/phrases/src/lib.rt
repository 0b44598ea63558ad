//! What printed texts are put together of: requirements, words of causes, texts of files as a terminal may have them,
//! words of a command, rows of a table. How they look where a person reads them, `Style` says: colours, and the
//! terminal's width.
#![tactic(auto)]

pub mod cause_word;
mod ink;
mod near_names;
mod notes;
mod plain_text;
pub mod release_runs;
mod requirement_text;
mod shell_word;
pub mod skipped_text;
mod style;
mod table;
mod target_line;
mod text_column;

pub use crate::ink::Ink;
pub use crate::near_names::{SOUGHT, add_near_names, add_near_of, has_package};
pub use crate::notes::Notes;
pub use crate::plain_text::add_plain;
pub use crate::requirement_text::{add_clause, add_requirement, add_specifiers};
pub use crate::shell_word::add_word;
pub use crate::style::{Style, add_wrapped};
pub use crate::table::add_table;
pub use crate::target_line::add_target_line;
pub use crate::text_column::{clause_column, column_of};
