// Clones.

use crate::scenarios::calls::play;
use crate::scenarios::data::{read_indexes, state};
use crate::scenarios::told::Tell;
use edits::{DistributionFile, Requirement, State};
use pep440::{SpecifierSet, Version};
use std::alloc::Global;
use std::io::Write;

/// Clones a value.
pub fn cloned<T: Tell + Clone, W: Write>(alloc: Global, out: &mut W, mut value: T) -> Option<()> {
    play(alloc, out, &mut value, |value| value.clone())
}

/// A requirement with extras, a set and a marker.
const REQUIREMENT: &str = "B.b[x,y]>=1.0,!=2.* ; os_name=='posix'";

/// The wheel of the first entry of a state.
fn wheel(alloc: Global, state: &State) -> Option<DistributionFile> {
    let entry = state.targets().first()?.lock.entries().first()?;
    entry.wheels().first()?.clone().ok()
}

/// Clones a value of the scenarios. A state shares its lines and entries with its clone; the clones of a requirement and a
/// file hold all that these do.
pub fn clones<W: Write>(alloc: Global, out: &mut W, what: &str) -> Option<()> {
    match what {
        "state" => cloned(alloc, out, state(alloc, &read_indexes(alloc)?)?),
        "requirement" => cloned(alloc, out, Requirement::read(alloc, REQUIREMENT).ok()?),
        "file" => cloned(
            alloc,
            out,
            wheel(alloc, &state(alloc, &read_indexes(alloc)?)?)?,
        ),
        "set" => cloned(alloc, out, SpecifierSet::parse(alloc, ">=1.0,!=2.*").ok()?),
        _ => cloned(alloc, out, Version::parse(alloc, what).ok()?),
    }
}
