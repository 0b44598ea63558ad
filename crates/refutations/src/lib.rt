//! What shows that a problem has no solution, by conflicts of single versions: refutations, their checker, and what each
//! conflict rests on. `set_refutations`, beside it, has the same of conflicts of sets of versions.
//!
//! Whether a list of conflicts, whoever made it, shows that a problem has no solution:
//!
//! ```rust
//! let problem = Problem::new(alloc, lines, environment, index, BTreeMap::new(alloc))?;
//! // A list without conflicts shows nothing.
//! let nothing = Refutation::new(Seq::from_vec(Vec::new(alloc)));
//! Ok(!check(&problem, &nothing))
//! ```
#![tactic(auto)]

mod checker;
mod choice;
mod ground;
mod grounds;
pub mod laws;
mod needed_conflicts;
mod refutation;

pub use crate::checker::{check, check_watched};
pub use crate::choice::Choice;
pub use crate::ground::{Ground, Need};
pub use crate::grounds::{completed, ground_of};
pub use crate::needed_conflicts::{accepted, cut};
pub use crate::refutation::Refutation;
