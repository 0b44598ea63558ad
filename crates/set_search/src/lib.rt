//! A search that learns conflicts of sets of versions, over a table of `search`.
//!
//! The search is trusted for nothing: what it hands out is tested by `set_conflicts`. In the words of PubGrub, whose
//! conflict resolution the search does, such a conflict is an incompatibility.
#![tactic(auto)]

mod conflict_resolution;
mod evidence;
mod explanation;
mod instance;
mod partial_assignment;
mod propagation;
mod search_state;
mod terms;
mod unit_propagation;
mod verdict;
mod walk;

pub use crate::verdict::{SetVerdict, solved};
