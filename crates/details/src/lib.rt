//! What is told on standard error beside a reply or the end of a call: what is known of a change, of a refusal and of a file that is at
//! fault, why there is no solution, and what to type next.
//!
//! `Details` notes it, in the manner of the call, and writes it behind what was told.
#![tactic(auto)]

mod change_details;
mod changed_file_details;
mod checkout_details;
mod details;
mod fault_details;
mod forgotten_details;
mod index_maker;
mod manner;
mod older_journal_details;
mod option_details;
mod refusal_details;
mod stopped_save_details;
mod unread_details;
mod word_details;

pub use crate::change_details::{Changed, Place};
pub use crate::details::{CallFiles, Details};
pub use crate::manner::Manner;
pub use crate::refusal_details::{FirstQuestion, environments_of};
