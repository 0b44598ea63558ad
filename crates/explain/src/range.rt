// Releases of a name that somebody asks for, as a few runs of versions.

use crate::wording::Extent;
use lists::Bits;
use phrases::release_runs::{Run, runs_of, version_text};
use snapshot::Release;
use std::alloc::{AllocError, Global};

/// How many runs are told, in short.
const RUNS: usize = 3;

/// Releases as they are told, and the places of all that are told so.
#[derive(Drop)]
pub struct Range {
    pub text: String,
    pub places: Bits,
}

/// Tells releases, which are listed newest first, as runs: `1 to 3, 5, or 7 or newer`. Of many runs, in short, the
/// least and the greatest version are told.
pub fn range_of(
    alloc: Global,
    releases: &[Release],
    places: &Bits,
    extent: Extent,
) -> Result<Range, AllocError> {
    let listed = places.places(alloc)?;
    let runs = runs_of(alloc, listed.as_slice())?;
    if runs.len() > extent.most(RUNS) {
        return range_between(alloc, releases, runs.as_slice());
    }
    let mut pieces = Vec::new(alloc);
    for run in runs.as_slice() {
        add_pieces(alloc, &mut pieces, releases, *run)?;
    }
    let ends_open = match runs.last() {
        Some(run) => is_open(*run),
        None => false,
    };
    Ok(Range {
        text: alternatives(alloc, pieces.as_slice(), ends_open)?,
        places: places.clone()?,
    })
}

/// Whether a run of several goes to the newest release.
fn is_open(run: Run) -> bool {
    run.newest == 0 && run.oldest > 0
}

/// The versions of a run. Two side by side are told as two.
fn add_pieces(
    alloc: Global,
    pieces: &mut Vec<String>,
    releases: &[Release],
    run: Run,
) -> Result<(), AllocError> {
    let oldest = version_text(alloc, releases, run.oldest)?;
    if is_open(run) {
        return Ok(pieces.push(format!(in alloc; "{oldest} or newer")?)?);
    }
    if run.oldest == run.newest {
        return Ok(pieces.push(oldest)?);
    }
    let newest = version_text(alloc, releases, run.newest)?;
    if run.oldest == run.newest.saturating_add(1) {
        pieces.push(oldest)?;
        return Ok(pieces.push(newest)?);
    }
    Ok(pieces.push(format!(in alloc; "{oldest} to {newest}")?)?)
}

/// The pieces with `or` before the last one. Where that has an `or` of its own, a comma parts them.
fn alternatives(alloc: Global, pieces: &[String], ends_open: bool) -> Result<String, AllocError> {
    let mut text = String::new(alloc);
    let last = pieces.len().saturating_sub(1);
    for (place, piece) in pieces.iter().enumerate() {
        if place > 0 {
            text.push_str(match (place == last, ends_open) {
                (true, true) => ", or ",
                (true, false) => " or ",
                _ => ", ",
            })?;
        }
        text.push_str(piece.as_str())?;
    }
    Ok(text)
}

/// The releases from the oldest of some runs to the newest.
fn range_between(alloc: Global, releases: &[Release], runs: &[Run]) -> Result<Range, AllocError> {
    let mut places = Bits::new(alloc);
    let mut text = String::new(alloc);
    if let (Some(first), Some(last)) = (runs.first(), runs.last()) {
        let oldest = version_text(alloc, releases, first.oldest)?;
        let newest = version_text(alloc, releases, last.newest)?;
        write!(text, "between {oldest} and {newest}")?;
        for place in last.newest..first.oldest.saturating_add(1) {
            places.insert(place)?;
        }
    }
    Ok(Range { text, places })
}
