//! What the best solution of rules is, over rules of any kind, and a table of numbers that holds rules.
//!
//! `specs/Rules` and `specs/Solutions` say what a solution of rules is and which one is the best,
//! whatever a name, a node, a version or a requirement is made of. A `Table` holds rules as numbers.
//! `Front` has what a search knows of its choices while it goes forward. The searches stand in crates of
//! their own: `set_search`, which may give up, and two that never do, `learning_search` and `plain_search`.
//! `specs/Conflicts` says what a conflict is and when it follows from others, and `specs/SetConflicts`
//! says it of conflicts of sets of versions. `specs/Picture` says when the numbers of a table stand for
//! other rules; `laws` carries the best solution over to those, and says that what follows from
//! conflicts lies in no solution.
#![tactic(auto)]

mod clash;
mod conflict;
mod front;
pub mod laws;
mod needed_nodes;
mod node_set;
mod parts;
mod table;
mod taken_places;
mod term;
mod watch;

pub use crate::conflict::{Decision, NodeChoice};
pub use crate::front::Front;
pub use crate::parts::{Frame, TableChoice, TableRequirement};
pub use crate::table::Table;
pub use crate::taken_places::{choices_of, choices_taken};
pub use crate::term::Term;
pub use crate::watch::{Unwatched, Watch};
