// The earlier conflicts that a conflict may contain with one release more.

use set_refutations::placed::{PlacedTerm, Unbound, unbound_in};
use std::alloc::{AllocError, Global};

/// Whether all terms that the conflict doesn't bind are at one node.
fn may_be_contained(old: &[PlacedTerm], own: &[PlacedTerm]) -> bool {
    !matches!(unbound_in(old, own), Unbound::Several)
}

/// The places of the conflicts before the one at a place that it may contain with one release more, among them of each that
/// it does. They rise.
pub(crate) fn containable_before(
    alloc: Global,
    terms: &[Vec<PlacedTerm>],
    place: usize,
) -> Result<Vec<usize>, AllocError> {
    let mut found = Vec::new(alloc);
    if let Some(own) = terms.get(place) {
        for (at, old) in terms.iter().enumerate().take(place) {
            if may_be_contained(old.as_slice(), own.as_slice()) {
                found.push(at)?;
            }
        }
    }
    Ok(found)
}
