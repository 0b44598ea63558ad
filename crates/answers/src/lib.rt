//! Why targets have no solution: the first that has none, what shows it, and what is told of it.
//!
//! What shows it is a refutation that a proved checker has accepted, or one by sets with the ground of each conflict.
#![tactic(auto)]

mod changed_lines;
mod given_way;
mod shown;
mod told;
mod with_release;

pub use crate::changed_lines::{changed_by, lines_of};
pub use crate::given_way::kept_longest;
pub use crate::shown::{first_explained, first_refuted, refuted_by_sets};
pub use crate::told::{explained_text, listed_text, told_refutation};
pub use crate::with_release::best_keeping;
pub use search::Watch;
