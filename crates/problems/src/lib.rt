//! The problem of a lock: what is asked, and what a solution is.
//!
//! Whether lines ask for anything in an environment:
//!
//! ```rust
//! let problem = Problem::new(alloc, lines, environment, index, BTreeMap::new(alloc))?;
//! // With no version chosen, the nodes of the active lines are needed, and no others.
//! let nodes = problem.needed(alloc, &BTreeMap::new(alloc))?;
//! Ok(!nodes.as_slice().is_empty())
//! ```
#![tactic(auto)]

mod admission;
mod by_extra;
mod inadmissible;
pub mod laws;
mod lent_choice;
mod needed;
mod node;
mod node_wants;
mod nodes;
pub mod parts;
mod problem;
mod reasons;
mod release_wants;
mod releases;
mod wanted;

pub use crate::admission::meets_python;
pub use crate::node::Node;
pub use crate::problem::Problem;
