// Targets with the conditions under which their locks hold elsewhere.

ghost use Rattle.std.specs.Prelude.{◌≡◌, IfOk, map};
ghost use Rattle.std.specs.List.{AllByRecursion};
ghost use Rattle.exports.specs.Tied.Covers.{IsCover};
ghost use Rattle.exports.specs.Tied.Reach.{AreAsked};

use crate::condition::Condition;
use crate::conditions::conditions_over;
use crate::marker_text::marker_text_of;
use crate::reach::Asked;
use lists::{Seq, Text};
use markers::marker_relations::the_relations_decide;
use pep508::Line;
use snapshot::Snapshot;
use states::Target;
use std::alloc::{AllocError, Global};

/// A target, the conditions under which its lock is the best one elsewhere, and the text of the marker that tells them.
pub(crate) struct Cover {
    /// The target.
    pub(crate) target: Target,
    /// What another environment has to meet.
    pub(crate) conditions: Seq<Condition>,
    /// The marker of the conditions; empty where there is none.
    pub(crate) marker: Text,
}

impl Drop for Cover {
    fn drop(self) {
        let Cover {
            target: _,
            conditions: _,
            marker: _,
        } = self;
    }
}

/// The cover of a target.
fn cover_of(
    alloc: Global,
    lines: &[Line],
    snapshot: &Snapshot,
    asked: &Asked,
    target: &Target,
) -> Result<Cover, AllocError>
    requires { AreAsked lines.now snapshot.now asked.now }
    ensures target { IfOk result (λ cover. cover.target ≡ target.now) }
    ensures cover { IfOk result (λ cover. IsCover lines.now snapshot.now cover) }
{
    the_relations_decide();
    let target = target.clone()?;
    target.environment.recall_invariant();
    let conditions = conditions_over(alloc, lines, snapshot, asked, &target.environment)?;
    let marker = marker_text_of(alloc, conditions.as_slice(), &target.environment)?;
    let marker = Text::from_string(marker);
    Ok(Cover {
        target,
        conditions,
        marker,
    })
}

/// The covers of targets, in their order.
pub(crate) fn covers_of(
    alloc: Global,
    lines: &[Line],
    snapshot: &Snapshot,
    asked: &Asked,
    targets: &[Target],
) -> Result<Seq<Cover>, AllocError>
    requires { AreAsked lines.now snapshot.now asked.now }
    ensures targets { IfOk result (λ covers. map (λ cover. cover.target) covers ≡ targets.now) }
    ensures covers { IfOk result
        (λ covers. AllByRecursion (IsCover lines.now snapshot.now) covers) }
{
    let mut covers = Vec::with_capacity(alloc, targets.len())?;
    for target in targets {
        covers.push(cover_of(alloc, lines, snapshot, asked, target)?)?;
    }
    Ok(Seq::from_vec(covers))
}
