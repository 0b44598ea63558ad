//! What the subcommands print that only read: a lock, also as other tools read it, a history, what changed, which releases are
//! newer or left out, and whether the files belong together. `why` prints why lines have no solution over an index, and why
//! a lock hasn't a release.
#![tactic(auto)]

mod check;
mod covers;
mod diff;
pub mod export;
mod held_texts;
mod log;
mod net_change;
mod net_lines;
mod net_parts;
mod outdated;
mod question;
mod show;
mod skipped;
mod stray_locks;
mod waiting;
mod why;
mod why_not;

pub use crate::check::{print_check, print_current, relock_change};
pub use crate::diff::{places_of, print_diff};
pub use crate::export::print_export;
pub use crate::log::print_history;
pub use crate::outdated::print_outdated;
pub use crate::question::answer_why;
pub use crate::show::print_shown;
pub use crate::skipped::print_skipped;
pub use crate::waiting::{Telling, Waiting};
pub use crate::why::{Asked, answer};
pub use crate::why_not::{NamedRelease, first_lacking, is_locked};
