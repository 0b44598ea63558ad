//! A plain backtracking search for the best solution of a table of `search`.
//!
//! It takes name after name with its first candidate, and moves on to the next candidate of the last name
//! where it is refuted. It records nothing. `learning_search` and `set_search` find the same and record
//! conflicts.
#![tactic(auto)]

mod backtracking;

pub use crate::backtracking::best;
