// The marker of the environments that have a target's lock.

ghost use Rattle.std.specs.Prelude.{◌≡◌, IfOk, IfSome, MatchOption, None, true};
ghost use Rattle.markers.specs.Environment.{IsEnvironment, Texts};
ghost use Rattle.markers.specs.Marker.{holds};
ghost use Rattle.exports.specs.Joint.{IsSameWhere};
ghost use Rattle.exports.specs.Laws.{HasSameLock};

use crate::conditions::conditions_of;
use crate::marker_text::marker_text_of;
use pep508::{Environment, Marker, ReqFile};
use snapshot::Snapshot;
use std::alloc::{AllocError, Global};

/// The marker of the environments in which a lock of the lines here is one too, as `marker_text_of` tells it; none if it is one in every
/// environment.
pub fn target_marker(
    alloc: Global,
    lines: &ReqFile,
    snapshot: &Snapshot,
    environment: &Environment,
) -> Result<Option<Marker>, AllocError>
    ensures own { IfOk result (λ found. IfSome found
        (λ marker. holds marker environment.now None ≡ true)) }
    ensures lock { IfOk result (λ found. MatchOption found
        ((other : Texts) → HasSameLock lines.now snapshot.now environment.now other)
        (IsSameWhere lines.now snapshot.now environment.now)) }
{
    environment.recall_invariant();
    let conditions = conditions_of(alloc, lines, snapshot, environment)?;
    if conditions.is_empty() {
        return Ok(None);
    }
    let text = marker_text_of(alloc, conditions.as_slice(), environment)?;
    match Marker::read(alloc, text.as_str()) {
        Ok(marker) => Ok(Some(marker)),
        // what is told of conditions reads as a marker, so memory is what was wanting
        Err(_) => Err(AllocError),
    }
}
