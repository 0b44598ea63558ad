//! A search for the best solution of a table of `search` that learns conflicts of single versions.
//!
//! `learned_best` finds what the plain search finds. Where there is no solution, `learned_or_refuted`
//! gives out the recorded conflicts as a refutation. `set_search` learns conflicts of sets of versions and
//! may give up; this search never does.
#![tactic(auto)]

mod assignment;
mod candidate_queue;
mod conflicts;
mod cursor;
mod decisions;
mod demands;
mod learned_search;
mod next_node;
mod partial_solution;
mod refusal;

pub use crate::learned_search::{Found, learned_best, learned_or_refuted};
