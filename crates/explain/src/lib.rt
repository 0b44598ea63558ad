//! Why lines have no solution, and why a lock hasn't a release: refutations as they are written, and in sentences.
#![tactic(auto)]

mod absent_release;
mod account;
mod asked;
mod changed_lines;
mod dependencies;
mod derivation;
mod exclusion;
mod exhausting;
mod explanation;
mod grounds;
mod idle_terms;
mod line_name;
mod narrowed_refutation;
mod range;
mod reasons;
mod refutation_text;
mod release_set;
mod sentences;
mod sides;
mod uncounted;
mod verb;
mod walk;
mod wording;

pub use crate::absent_release::{WantedRelease, add_difference, add_same};
pub use crate::changed_lines::{ChangedLine, ChangedLines};
pub use crate::explanation::{Explanation, explained};
pub use crate::refutation_text::add_refutation;
pub use crate::uncounted::{Uncounted, uncounted_release};
pub use crate::walk::next_name;
pub use crate::wording::{Extent, Wording};
