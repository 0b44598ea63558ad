//! The lock as other tools read it, and in which other environments it is the best lock too.
//!
//! Pinned requirements with hashes for pip, a graph for Graphviz, and a lock for the environments of a marker. How many
//! conditions another environment has to meet, so that the best solution is the same there:
//!
//! ```rust
//! Ok(conditions_of(alloc, lines, index, environment)?.len())
//! ```
#![tactic(auto)]

mod answers;
mod apart;
mod condition;
mod conditions;
mod cover;
mod covering;
mod graph;
mod hashed_requirements;
mod implication;
mod joint;
mod joint_entries;
mod joint_marker;
mod joint_packages;
mod kept_conditions;
pub mod laws;
mod marker_text;
mod named_target;
mod opposites;
mod portable_lock;
mod quoted_text;
mod reach;
mod settling_relations;
mod sign_clauses;

pub use crate::condition::Condition;
pub use crate::conditions::conditions_of;
pub use crate::covering::target_marker;
pub use crate::graph::graph_text;
pub use crate::hashed_requirements::requirements_text;
pub use crate::joint::{JointFault, joint_lock};
pub use crate::marker_text::marker_text_of;
pub use crate::named_target::target_named;
pub use crate::portable_lock::{portable_text, unbound_text};
