// The targets of a first lock.

use crate::pins::TargetPins;
use lists::Seq;
use states::Targets;

/// The targets of a first lock, and the versions that are handed in for them. Without any, no version is
/// kept.
#[derive(Drop)]
pub struct FirstTargets {
    pub targets: Targets,
    pub pins: Seq<TargetPins>,
}
