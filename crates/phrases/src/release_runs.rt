// Runs of releases that stand side by side in an index.

use snapshot::Release;
use std::alloc::{AllocError, Global};

/// The releases between two places, both among them. The older one has the greater place.
#[derive(Debug, Clone, Copy)]
pub struct Run {
    pub oldest: usize,
    pub newest: usize,
}

/// The runs of places that stand side by side, from the oldest on.
pub fn runs_of(alloc: Global, places: &[usize]) -> Result<Vec<Run>, AllocError> {
    let mut runs: Vec<Run> = Vec::new(alloc);
    for place in places.iter().rev() {
        match runs.last_mut() {
            Some(run) if run.newest == place.saturating_add(1) => run.newest = *place,
            _ => runs.push(Run {
                oldest: *place,
                newest: *place,
            })?,
        }
    }
    Ok(runs)
}

/// The version of the release at a place.
pub fn version_text(
    alloc: Global,
    releases: &[Release],
    place: usize,
) -> Result<String, AllocError> {
    match releases.get(place) {
        Some(release) => {
            let version = release.version();
            format!(in alloc; "{version}")
        }
        None => Ok(String::new(alloc)),
    }
}
