//! What refutes the problem of a lock: conflicts that follow from one another, of single versions or of sets of versions.
//!
//! Why lines have no solution over an index, where they have none:
//!
//! ```rust
//! let problem = Problem::new(alloc, lines, environment, index, BTreeMap::new(alloc))?;
//! match refute_singly(alloc, &problem, &mut Unwatched)? {
//!     Some(refutation) => Ok(check(&problem, &refutation)),
//!     // There is a solution.
//!     None => Ok(true),
//! }
//! ```
#![tactic(auto)]

mod answer;
mod expansion;
mod refutation;
mod set_answer;
mod set_refutation;

pub use crate::answer::refute_singly;
pub use crate::expansion::refute_by_choices;
pub use crate::set_answer::refute_by_sets;
