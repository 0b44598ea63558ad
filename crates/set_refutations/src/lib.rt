//! What shows that a problem has no solution, by conflicts of sets of versions: refutations, their checker, and what
//! each conflict rests on. `refutations`, beside it, has the same of conflicts of single versions.
//!
//! Whether a list of conflicts of sets, whoever made it, shows that a problem has no solution:
//!
//! ```rust
//! let problem = Problem::new(alloc, lines, environment, index, BTreeMap::new(alloc))?;
//! // A list without conflicts shows nothing.
//! let nothing = SetRefutation::new(Seq::from_vec(Vec::new(alloc)));
//! Ok(!check_sets(&problem, &nothing))
//! ```
#![tactic(auto)]

mod checker;
mod earlier_sets;
pub mod laws;
pub mod placed;
mod placed_refutation;
mod set_ground;
mod set_grounds;
mod set_refutation;

pub use crate::checker::{check_sets, ends_empty};
pub use crate::earlier_sets::EarlierSets;
pub use crate::placed_refutation::PlacedRefutation;
pub use crate::set_ground::{SetGround, SetNeed};
pub use crate::set_grounds::{set_completed, set_ground_of};
pub use crate::set_refutation::{SetRefutation, SetTerm};
