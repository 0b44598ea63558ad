//! Conflicts of sets of versions, over a table of `search`: when one follows, and whether what a search did holds.
//!
//! A search hands out a list of conflicts, each with the reason why it follows from those before it, and
//! `refutation_of` tests each reason over the table; where it walked to the end, `replay` makes its moves anew and
//! tests each. So the search is trusted for nothing. `search/specs/SetConflicts` says when a conflict follows, and the
//! law `what_follows_from_sets_lies_in_no_solution` what that shows.
#![tactic(auto)]

pub mod clash;
mod completion;
pub mod derivation;
pub mod domains;
pub mod flags;
mod justification;
pub mod known_terms;
pub mod laws;
pub mod need;
pub mod places;
pub mod reason;
mod refusal;
pub mod refutation;
pub mod replay;
pub mod table_term;
