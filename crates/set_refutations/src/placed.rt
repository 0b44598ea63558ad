//! Terms of a set refutation as sets of releases of an index: where to look for what a conflict rests on. Nothing of it is
//! promised; what decides is the ground of a conflict.

mod bound_terms;
mod placed_conflicts;
mod placed_term;
mod places;

pub use crate::placed::bound_terms::{Unbound, binding, binds, unbound_in};
pub use crate::placed::placed_conflicts::PlacedConflicts;
pub use crate::placed::placed_term::PlacedTerm;
pub use crate::placed::places::{candidate_places, place_of};
