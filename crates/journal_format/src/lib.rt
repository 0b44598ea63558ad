//! The format of a journal: a line of JSON for its header, and one for each step. Versions 1, 2 and 3 are
//! read, versions 2 and 3 are written.
#![tactic(auto)]

mod entries;
mod forms;
mod header;
mod lines;
mod steps;
mod values;

pub use crate::header::{Header, HeaderTarget, JournalVersion, header_of_line};
pub use crate::lines::cut_line;
pub use crate::steps::change_of_line;
pub use crate::values::{header_value, step_value};
pub use pylock::Flaw;
