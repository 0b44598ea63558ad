//! The relations of markers, and the law that they decide whether a marker holds.

ghost use Rattle.markers.specs.MarkerRelations.{RelationsDecide};

pub use crate::marker_atom::{CachedRelation, MarkerOperator, Operand};

/// Where each of its relations holds in both of two environments or in neither, so does a marker, whatever extra is asked.
pub fn the_relations_decide()
    ensures { RelationsDecide }
{}
