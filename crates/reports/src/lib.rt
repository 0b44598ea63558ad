//! With which status a call ends, and what is told of one that stops; and how a text is printed.
//!
//! `report` tells a `Stop`, with a status of its own.
#![tactic(auto)]

mod input_fault_text;
mod output;
pub mod report;

pub use crate::input_fault_text::InputFaultText;
pub use crate::output::{is_closed, print, show};
